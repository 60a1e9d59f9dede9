ghost use Rattle.std.specs.Prelude.{◌≡◌, ◌<◌, ◌≤◌, [], ◌∷◌, ◌++◌, length, map, bytes_eq, true, false, IfOk, MatchOption, OnErr};
ghost use Rattle.std.specs.List.{position};
ghost use Rattle.omalloc.specs.AcceptedInput.{titled, command_of, place_of, with_name};
ghost use Rattle.omalloc.specs.Script.{most_commands, most_names};

use crate::command::Command;
use std::alloc::{AllocError, Global};
use std::marker::Model;

/// The most commands of a script.
const MOST_COMMANDS: usize = 200_000;

/// The most names of variables in a script.
const MOST_NAMES: usize = 64;

/// What a command asks, before its variable has a place.
#[derive(Clone, Copy, Debug, PartialEq, Eq)]
pub enum Request {
    /// The size in bytes.
    Malloc(u64),
    /// How many items, and the size of each.
    Calloc(u64, u64),
    /// The new size in bytes.
    Realloc(u64),
    /// How many items there shall be, and the size of each.
    Reallocarray(u64, u64),
    Free,
    /// The offset in bytes.
    Load(u64),
    /// The offset, and the byte that is written.
    Store(u64, u8),
}

/// The command of a request, by the places of its variables. Only a request that resizes has a second one.
pub fn command_of(var: u32, from: u32, request: Request) -> Command
    ensures { result ≡ command_of var from request }
{
    let site = 0;
    match request {
        Request::Malloc(size) => Command::Malloc { var, size, site },
        Request::Calloc(count, size) => Command::Calloc {
            var,
            count,
            size,
            site,
        },
        Request::Realloc(size) => Command::Realloc {
            var,
            from,
            size,
            site,
        },
        Request::Reallocarray(count, size) => Command::Reallocarray {
            var,
            from,
            count,
            size,
            site,
        },
        Request::Free => Command::Free { var },
        Request::Load(off) => Command::Load { var, off },
        Request::Store(off, byte) => Command::Store { var, off, byte },
    }
}

fn find_name(names: &[Vec<u8>], name: &[u8]) -> Option<usize>
    ensures { result ≡ position (λ n. bytes_eq n.items name.now) names.now }
{
    names.iter().position(|n| n.as_slice() == name)
}

fn place_of(names: &[Vec<u8>], name: &[u8]) -> usize
    ensures place { result ≡ place_of (map (λ n. n.items) names.now) name.now }
    ensures bound { result ≤ length names.now }
{
    find_name(names, name).unwrap_or(names.len())
}

/// A script: its name, its variables in the order of their first use, and its commands.
#[derive(Debug, Drop)]
pub struct Script {
    name: Vec<u8>,
    names: Vec<Vec<u8>>,
    commands: Vec<Command>,
}

impl Model for Script {
    ghost use Rattle.std.specs.Prelude.{◌≤◌, map, vec_len};
    ghost use Rattle.omalloc.specs.Script.{ScriptText, most_commands, most_names};

    ghost Value = { ScriptText };

    ghost view = { λ s. record {
      name = s.name.items;
      names = map (λ n. n.items) s.names.items;
      commands = s.commands.items;
    } };

    ghost invariant = { λ s.
        (vec_len s.names ≤ most_names) × (vec_len s.commands ≤ most_commands) };
}

impl Script {
    /// A script without commands.
    pub fn new(alloc: Global, name: &[u8]) -> Result<Script, AllocError>
        ensures { IfOk result (λ script. script ≡ titled name.now) }
    {
        Ok(Script {
            name: Vec::from_slice(alloc, name)?,
            names: Vec::new(alloc),
            commands: Vec::new(alloc),
        })
    }

    /// The place of the variable of this name, which is added where it is new. None where that is one too many; then
    /// nothing changes.
    pub fn place(&mut self, alloc: Global, name: &[u8]) -> Result<Option<u32>, AllocError>
        ensures place { IfOk result (λ place. MatchOption place
            (most_names < length (with_name self.old.names name.now) × self.new ≡ self.old)
            (λ at. (at ≡ place_of self.old.names name.now)
            × (self.new ≡ record self.old { names = with_name self.old.names name.now })
            × (length self.new.names ≤ most_names))) }
        ensures err { OnErr result (self.new ≡ self.old) }
    {
        let place = place_of(&self.names, name);
        if place >= MOST_NAMES {
            return Ok(None);
        }
        if place == self.names.len() {
            self.names.push(Vec::from_slice(alloc, name)?)?;
        }
        Ok(Some(place as u32))
    }

    /// Adds a command, and says whether it found room.
    pub fn push(&mut self, command: Command) -> Result<bool, AllocError>
        ensures added { IfOk result (λ found. found ≡ true
            → (length self.old.commands < most_commands)
            × (self.new ≡ record self.old { commands = self.old.commands ++ command ∷ [] })) }
        ensures full { IfOk result (λ found. found ≡ false
            → (most_commands ≤ length self.old.commands) × (self.new ≡ self.old)) }
        ensures err { OnErr result (self.new ≡ self.old) }
    {
        if self.commands.len() >= MOST_COMMANDS {
            return Ok(false);
        }
        self.commands.push(command)?;
        Ok(true)
    }

    /// The name that the script's first line gives.
    pub fn name(&self) -> &[u8]
        ensures { result.now ≡ self.now.name }
    {
        self.name.as_slice()
    }

    /// How many variables the commands use.
    pub fn variables(&self) -> usize
        ensures { result ≡ length self.now.names }
    {
        self.names.len()
    }

    /// The commands in the order of the text.
    pub fn commands(&self) -> &[Command]
        ensures { result.now ≡ self.now.commands }
    {
        self.commands.as_slice()
    }
}
