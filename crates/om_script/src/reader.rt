//! How far a text has been read: the scripts that have ended, and the one that hasn't.

ghost use Rattle.std.specs.Prelude.{◌≡◌, ℕ, List, true, false, IfOk, OnOk, MatchResult};
ghost use Rattle.om_script.specs.Lines.{words_in};
ghost use Rattle.om_script.specs.Keywords.{kinds_of, kinds_behind, fit, any_word, is_too_large};
ghost use Rattle.om_script.specs.Standing.{is_misplaced, unended};
ghost use Rattle.om_script.specs.Script.{ScriptText};
ghost use Rattle.om_script.specs.Accepted.{AreScripts};

use crate::keyword::{Keyword, Verb, keyword_of};
use crate::line::{
    fit, has_no_cell, has_too_large, is_ascii_line, next_word, without_comment, word_at,
};
use crate::script::{Script, Scripts, has_name};
use std::alloc::{AllocError, Global};
use std::marker::Model;

const NOT_ASCII: u32 = 1;

const SYNTAX_ERROR: u32 = 2;

const UNKNOWN_COMMAND: u32 = 3;

const NUMBER_TOO_LARGE: u32 = 4;

const TOO_MANY_SCRIPTS: u32 = 5;

const TOO_MANY_COMMANDS: u32 = 6;

const TOO_MANY_NAMES: u32 = 7;

const DOUBLE_NAME: u32 = 8;

const CELL_OUT_OF_RANGE: u32 = 9;

/// The text ends inside a script.
pub const UNENDED: u32 = 10;

const MOST_SCRIPTS: usize = 16;

const MOST_COMMANDS: u32 = 200_000;

/// A script that hasn't ended.
#[derive(Debug, Drop)]
pub struct Current {
    /// The line that it began on.
    pub line: u32,
    pub script: Script,
}

/// What the lines so far say.
#[derive(Debug, Drop)]
pub struct Reader {
    done: Vec<Script>,
    current: Option<Current>,
    commands: u32,
}

impl Model for Reader {
    ghost use Rattle.std.specs.Prelude.{vec_len};
    ghost use Rattle.om_script.specs.Reading.{Reading, IsWithin};

    ghost Value = { Reading };

    ghost view = { λ r. record {
      done = r.done.items;
      current = r.current;
      commands = r.commands;
    } };

    ghost invariant = { λ r. IsWithin (vec_len r.done) r.current r.commands };
}

impl Reader {
    ghost use Rattle.om_script.specs.Steps.{start, standing_of, is_inside, ended_after, limited_step, keyword_step, step, Leads, ended};

    /// Nothing was read.
    pub fn new(alloc: Global) -> Reader
        ensures { result ≡ start }
    {
        Reader {
            done: Vec::new(alloc),
            current: None,
            commands: 0,
        }
    }

    // The keyword stands where it may not.
    fn is_misplaced(&self, keyword: Keyword) -> bool
        ensures { result ≡ is_misplaced (standing_of self.now) keyword }
    {
        match keyword {
            Keyword::Script => self.current.is_some(),
            Keyword::End | Keyword::Command(_) => self.current.is_none(),
        }
    }

    // Begins a script on the line with this number, unless it is refused.
    fn begin(&mut self, alloc: Global, line: u32, words: &[u8]) -> Result<Option<u32>, AllocError>
        requires outside { self.old.current ≡ None }
        requires fit { fit (kinds_behind Keyword.Script) (words_in words.now) ≡ true }
        ensures { IfOk result
            (Leads (limited_step self.old line Keyword.Script (words_in words.now)) self.new) }
    {
        if self.done.len() >= MOST_SCRIPTS {
            return Ok(Some(TOO_MANY_SCRIPTS));
        }
        let name = word_at(words, 0);
        if has_name(&self.done, name) {
            return Ok(Some(DOUBLE_NAME));
        }
        let script = Script::new(alloc, name)?;
        self.current = Some(Current { line, script });
        Ok(None)
    }

    // Ends the script.
    fn end(&mut self) -> Result<(), AllocError>
        ensures { OnOk result (self.new ≡ ended_after self.old self.old.current) }
    {
        if let Some(current) = self.current.take() {
            self.done.push(current.script)?;
        }
        Ok(())
    }

    // Adds a command, unless it is refused.
    fn add(&mut self, alloc: Global, verb: Verb, words: &[u8]) -> Result<Option<u32>, AllocError>
        requires inside { is_inside self.old.current ≡ true }
        requires fit { fit (kinds_of verb) (words_in words.now) ≡ true }
        requires small { any_word is_too_large (kinds_of verb) (words_in words.now) ≡ false }
        ensures { (line : ℕ) → IfOk result
            (Leads (limited_step self.old line (Keyword.Command verb) (words_in words.now)) self.new) }
    {
        if self.commands >= MOST_COMMANDS {
            return Ok(Some(TOO_MANY_COMMANDS));
        }
        let Some(mut current) = self.current.take() else {
            return Ok(None);
        };
        if !current.script.add_names(alloc, verb.kinds(), words)? {
            return Ok(Some(TOO_MANY_NAMES));
        }
        if has_no_cell(verb.kinds(), words) {
            return Ok(Some(CELL_OUT_OF_RANGE));
        }
        current.script.push(verb, words)?;
        self.commands += 1;
        self.current = Some(current);
        Ok(None)
    }

    // Reads on behind a line with this keyword and these words, unless it is refused.
    fn read_command(
        &mut self,
        alloc: Global,
        line: u32,
        keyword: Keyword,
        words: &[u8],
    ) -> Result<Option<u32>, AllocError>
        ensures { IfOk result
            (Leads (keyword_step self.old line keyword (words_in words.now)) self.new) }
    {
        if self.is_misplaced(keyword) || !fit(keyword.kinds(), words) {
            return Ok(Some(SYNTAX_ERROR));
        }
        if has_too_large(keyword.kinds(), words) {
            return Ok(Some(NUMBER_TOO_LARGE));
        }
        match keyword {
            Keyword::Script => self.begin(alloc, line, words),
            Keyword::End => {
                self.end()?;
                Ok(None)
            }
            Keyword::Command(verb) => self.add(alloc, verb, words),
        }
    }

    /// Reads on behind a line with this number, unless it is refused: then the number of the refusal.
    pub fn read_line(
        &mut self,
        alloc: Global,
        number: u32,
        line: &[u8],
    ) -> Result<Option<u32>, AllocError>
        ensures { IfOk result (Leads (step self.old number line.now) self.new) }
    {
        if !is_ascii_line(line) {
            return Ok(Some(NOT_ASCII));
        }
        let Some((word, words)) = next_word(without_comment(line)) else {
            return Ok(None);
        };
        match keyword_of(word) {
            None => Ok(Some(UNKNOWN_COMMAND)),
            Some(keyword) => self.read_command(alloc, number, keyword, words),
        }
    }

    /// The scripts, or the line that began the one that hasn't ended.
    pub fn finish(self) -> Result<Scripts, u32>
        requires { (scripts : List ScriptText) → ended self ≡ Ok scripts → AreScripts scripts }
        ensures { MatchResult result (λ scripts. ended self ≡ Ok scripts)
            (λ line. ended self ≡ Err (line, unended)) }
    {
        let Reader {
            done,
            current,
            commands: _,
        } = self;
        match current {
            None => Ok(Scripts::new(done)),
            Some(current) => Err(current.line),
        }
    }
}
