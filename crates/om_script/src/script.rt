//! Scripts, as they are kept.

ghost use Rattle.std.specs.Prelude.{◌≡◌, ℕ, ◌+◌, ◌-◌, ◌^◌, ◌<◌, ◌≤◌, ◌↔◌, [], ◌∷◌, ◌++◌, length, map, true, false, Some, IsTrue, IfOk, MatchBool, OnOk, slice_get, bytes_eq, string_bytes};
ghost use Rattle.std.specs.List.{position, list_any};
ghost use Rattle.om_script.specs.Lines.{words_in};
ghost use Rattle.om_script.specs.Words.{is_name};
ghost use Rattle.om_script.specs.Keywords.{kinds_of, fit, any_word, is_of_kind, is_too_large, is_no_cell, place_of, with_name, with_names, names_in, word_at, number_at, site_at, variable_at, command_in};
ghost use Rattle.om_script.specs.Standing.{most_commands, most_names};
ghost use Rattle.om_script.specs.Steps.{titled};
ghost use Rattle.om_script.specs.Accepted.{AreScripts};

use crate::command::Command;
use crate::keyword::{Kind, Verb};
use crate::line::{find_word, next_word, word_at};
use crate::word::{site_value, value_of};
use indexmap::IndexSet;
use std::alloc::{AllocError, AllocFailed, Global};
use std::marker::Model;
use thiserror::Error;

/// The most names of variables in a script.
const MOST_NAMES: usize = 64;

/// Why a text gives no scripts.
#[derive(Debug, Drop, Error)]
pub enum ScriptStop {
    /// The first line that is refused, from 1 on, and the number of the least refusal that holds of it.
    #[error("line {line} is refused: {number}")]
    Refused { line: u32, number: u32 },
    /// No memory was there.
    #[error("out of memory")]
    Memory,
}

impl From<AllocError> for ScriptStop {
    ghost use Rattle.om_script.specs.declared.script.ScriptStop.TheVariants.{Memory};

    ghost from_gives = { λ _ stop. stop ≡ Memory };

    fn from(_: AllocError) -> ScriptStop {
        ScriptStop::Memory
    }
}

impl<T: Drop> From<AllocFailed<T>> for ScriptStop {
    ghost use Rattle.om_script.specs.declared.script.ScriptStop.TheVariants.{Memory};

    ghost from_gives = { λ _ stop. stop ≡ Memory };

    fn from(_: AllocFailed<T>) -> ScriptStop {
        ScriptStop::Memory
    }
}

/// A script: its name, its variables in the order of their first use, and its commands.
#[derive(Debug, Drop)]
pub struct Script {
    name: String,
    names: IndexSet<String>,
    commands: Vec<Command>,
}

impl Model for Script {
    ghost use Rattle.std.specs.Prelude.{◌≤◌, map, length, vec_len, string_bytes};
    ghost use Rattle.om_script.specs.Script.{ScriptText};
    ghost use Rattle.om_script.specs.Standing.{most_commands, most_names};

    ghost Value = { ScriptText };

    ghost view = { λ s. record {
      name = string_bytes s.name;
      names = map string_bytes s.names.keys;
      commands = s.commands.items;
    } };

    ghost invariant = { λ s.
        (length s.names.keys ≤ most_names) × (vec_len s.commands ≤ most_commands) };
}

// A name as text.
fn text_of(name: &[u8]) -> &str
    requires { is_name name.now ≡ true }
    ensures { result.now ≡ name.now }
{
    match str::from_utf8(name) {
        Ok(text) => text,
        Err(_) => unreachable!(),
    }
}

impl Script {
    /// A script without commands.
    pub(crate) fn new(alloc: Global, name: &[u8]) -> Result<Script, AllocError>
        requires { is_name name.now ≡ true }
        ensures { IfOk result (λ script. script ≡ titled name.now) }
    {
        Ok(Script {
            name: String::from_str(alloc, text_of(name))?,
            names: IndexSet::new(alloc),
            commands: Vec::new(alloc),
        })
    }

    // The place of a name of a variable, and their number where it is none of them.
    fn place_of(&self, name: &[u8]) -> u32
        requires { is_name name.now ≡ true }
        ensures { result ≡ place_of self.now.names name.now }
    {
        match self.names.get_index_of(text_of(name)) {
            Some(place) => place as u32,
            None => self.names.len() as u32,
        }
    }

    // Adds the name of a variable where it is new. False where that is one too many; then nothing changes.
    fn add_name(&mut self, alloc: Global, name: &[u8]) -> Result<bool, AllocError>
        requires { is_name name.now ≡ true }
        ensures { IfOk result (λ found. MatchBool found
            ((self.new ≡ record self.old { names = with_name self.old.names name.now })
            × (length self.new.names ≤ most_names))
            (most_names < length (with_name self.old.names name.now))) }
    {
        let name = text_of(name);
        if self.names.contains(name) {
            return Ok(true);
        }
        if self.names.len() >= MOST_NAMES {
            return Ok(false);
        }
        let name = String::from_str(alloc, name)?;
        self.names.insert(name)?;
        Ok(true)
    }

    // Adds what the word is where it is the name of a variable.
    fn add_word(&mut self, alloc: Global, kind: Kind, word: &[u8]) -> Result<bool, AllocError>
        requires { is_of_kind kind word.now ≡ true }
        ensures { IfOk result (λ found. let names = with_names self.old.names (names_in (kind ∷ []) (word.now ∷ [])) in
            MatchBool found ((self.new ≡ record self.old { names = names }) × (length self.new.names ≤ most_names))
            (most_names < length names)) }
    {
        let _ = &self.names;
        match kind {
            Kind::Name => self.add_name(alloc, word),
            Kind::Number | Kind::Byte | Kind::Cell | Kind::Site => Ok(true),
        }
    }

    /// Adds the names of variables that the words of a command are. False where they are too many; then it may have some
    /// of them.
    pub(crate) fn add_names(
        &mut self,
        alloc: Global,
        kinds: &[Kind],
        words: &[u8],
    ) -> Result<bool, AllocError>
        requires { fit kinds.now (words_in words.now) ≡ true }
        ensures { IfOk result (λ found. let names = with_names self.old.names (names_in kinds.now (words_in words.now)) in
            MatchBool found ((self.new ≡ record self.old { names = names }) × (length self.new.names ≤ most_names))
            (most_names < length names)) }
    {
        let _ = &self.names;
        match kinds {
            [] => Ok(true),
            [kind, others @ ..] => match next_word(words) {
                None => Ok(true),
                Some((word, more)) => {
                    if !self.add_word(alloc, *kind, word)? {
                        return Ok(false);
                    }
                    self.add_names(alloc, others, more)
                }
            },
        }
    }

    /// Adds a command with these words, whose names the script has.
    pub(crate) fn push(&mut self, verb: Verb, words: &[u8]) -> Result<(), AllocError>
        requires few { length self.old.commands < most_commands }
        requires fit { fit (kinds_of verb) (words_in words.now) ≡ true }
        requires small { any_word is_too_large (kinds_of verb) (words_in words.now) ≡ false }
        requires cells { any_word is_no_cell (kinds_of verb) (words_in words.now) ≡ false }
        ensures { OnOk result (self.new ≡ record self.old {
          commands = self.old.commands ++ command_in self.old.names verb (words_in words.now) ∷ [];
        }) }
    {
        let command = self.command_of(verb, words);
        self.commands.push(command)?;
        Ok(())
    }

    fn variable_at(&self, words: &[u8], number: usize) -> u32
        requires { is_name (word_at (words_in words.now) number) ≡ true }
        ensures { result ≡ variable_at self.now.names (words_in words.now) number }
    {
        self.place_of(word_at(words, number))
    }

    // The command with these words.
    fn command_of(&self, verb: Verb, words: &[u8]) -> Command
        requires fit { fit (kinds_of verb) (words_in words.now) ≡ true }
        requires small { any_word is_too_large (kinds_of verb) (words_in words.now) ≡ false }
        requires cells { any_word is_no_cell (kinds_of verb) (words_in words.now) ≡ false }
        ensures { result ≡ command_in self.now.names verb (words_in words.now) }
    {
        match verb {
            Verb::Malloc => Command::Malloc {
                var: self.variable_at(words, 0),
                size: number_at(words, 1),
                site: site_at(words, 2),
            },
            Verb::Calloc => Command::Calloc {
                var: self.variable_at(words, 0),
                count: number_at(words, 1),
                size: number_at(words, 2),
                site: site_at(words, 3),
            },
            Verb::Realloc => Command::Realloc {
                var: self.variable_at(words, 0),
                from: self.variable_at(words, 1),
                size: number_at(words, 2),
                site: site_at(words, 3),
            },
            Verb::Reallocarray => Command::Reallocarray {
                var: self.variable_at(words, 0),
                from: self.variable_at(words, 1),
                count: number_at(words, 2),
                size: number_at(words, 3),
                site: site_at(words, 4),
            },
            Verb::Free => Command::Free {
                var: self.variable_at(words, 0),
            },
            Verb::Load => Command::Load {
                var: self.variable_at(words, 0),
                off: number_at(words, 1),
            },
            Verb::Store => Command::Store {
                var: self.variable_at(words, 0),
                off: number_at(words, 1),
                byte: number_at(words, 2) as u8,
            },
            Verb::Let => Command::Let {
                var: self.variable_at(words, 0),
                value: number_at(words, 1),
            },
            Verb::Add => Command::Add {
                var: self.variable_at(words, 0),
                from: self.variable_at(words, 1),
                off: number_at(words, 2),
            },
            Verb::Post => Command::Post {
                cell: number_at(words, 0) as u32,
                var: self.variable_at(words, 1),
            },
            Verb::Take => Command::Take {
                var: self.variable_at(words, 0),
                cell: number_at(words, 1) as u32,
            },
            Verb::Phase => Command::Phase,
        }
    }

    /// The name that its first line gives.
    pub fn name(&self) -> &str
        ensures { result.now ≡ self.now.name }
    {
        &self.name
    }

    /// How many commands it has.
    pub fn len(&self) -> u32
        ensures { result ≡ length self.now.commands }
    {
        self.commands.len() as u32
    }

    /// It has no command.
    pub fn is_empty(&self) -> bool
        ensures { IsTrue result ↔ (self.now.commands ≡ []) }
    {
        self.commands.is_empty()
    }

    /// Its commands, in its order.
    pub(crate) fn commands(&self) -> &[Command]
        ensures { result.now ≡ self.now.commands }
    {
        &self.commands
    }

    /// The command with this number, from 1 on.
    pub fn command(&self, i: u32) -> Command
        requires from { 1 ≤ i }
        requires to { i ≤ length self.now.commands }
        ensures { slice_get self.now.commands (i - 1) ≡ Some result }
    {
        self.commands[i as usize - 1]
    }

    /// How many variables it has.
    pub fn names(&self) -> u32
        ensures { result ≡ length self.now.names }
    {
        self.names.len() as u32
    }

    /// The name of the variable in this place.
    pub fn name_of(&self, var: u32) -> &str
        requires { var < length self.now.names }
        ensures { slice_get self.now.names var ≡ Some result.now }
    {
        self.names.as_slice()[var as usize].as_str()
    }
}

// The number that the word in this place stands for.
fn number_at(words: &[u8], number: usize) -> u64
    requires { number_at (words_in words.now) number < 2 ^ 64 }
    ensures { result ≡ number_at (words_in words.now) number }
{
    value_of(word_at(words, number))
}

// The site in this place, 0 where none stands there.
fn site_at(words: &[u8], number: usize) -> u64
    requires { site_at (words_in words.now) number < 2 ^ 64 }
    ensures { result ≡ site_at (words_in words.now) number }
{
    match find_word(words, number) {
        None => 0,
        Some(word) => site_value(word),
    }
}

/// Some script has this name.
pub(crate) fn has_name(scripts: &[Script], name: &[u8]) -> bool
    ensures { result ≡ list_any (λ s. bytes_eq s.name name.now) scripts.now }
{
    scripts.iter().any(|s| s.name().as_bytes() == name)
}

/// The scripts of a text, in its order.
#[derive(Debug, Drop)]
pub struct Scripts {
    scripts: Vec<Script>,
}

impl Model for Scripts {
    ghost use Rattle.std.specs.Prelude.{List};
    ghost use Rattle.om_script.specs.Script.{ScriptText};
    ghost use Rattle.om_script.specs.Accepted.{AreScripts};

    ghost Value = { List ScriptText };

    ghost view = { λ s. s.scripts.items };

    ghost invariant = { λ s. AreScripts s.scripts.items };
}

impl Scripts {
    /// These scripts.
    pub(crate) fn new(scripts: Vec<Script>) -> Scripts
        requires { AreScripts scripts.items }
        ensures { result ≡ scripts.items }
    {
        Scripts { scripts }
    }

    /// How many scripts there are.
    pub fn len(&self) -> u32
        ensures { result ≡ length self.now }
    {
        self.scripts.len() as u32
    }

    /// There is none.
    pub fn is_empty(&self) -> bool
        ensures { IsTrue result ↔ (self.now ≡ []) }
    {
        self.scripts.is_empty()
    }

    /// The scripts, in the order of the text.
    pub(crate) fn scripts(&self) -> &[Script]
        ensures items { result.now ≡ self.now }
        ensures form { AreScripts self.now }
    {
        &self.scripts
    }

    /// The script with this number, from 0 on.
    pub fn script(&self, t: u32) -> &Script
        requires { t < length self.now }
        ensures { slice_get self.now t ≡ Some result.now }
    {
        &self.scripts[t as usize]
    }
}
