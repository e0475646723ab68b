ghost use Rattle.std.specs.Prelude.{◌≡◌, ◌≤◌, ◌||◌, List, ℕ, false, not, length, IfOk};
ghost use Rattle.std.specs.Str.{bytes_eq};
ghost use Rattle.twp_answers.specs.Names.{has_name};
ghost use Rattle.twp_answers.specs.Tracts.{NAME_MOST};

use crate::tract::NAME_MOST;
use arrayvec::ArrayString;
use std::alloc::{AllocError, Global};
use std::collections::HashSet;

/// The names of the tracts so far, by their bytes. A name needs no allocation of its own.
#[derive(Drop)]
pub struct NamesSoFar {
    names: HashSet<ArrayString<NAME_MOST>>,
}

impl NamesSoFar {
    /// No names.
    pub fn new(alloc: Global) -> NamesSoFar
        ensures { (name : List ℕ) → has_name result name ≡ false }
    {
        NamesSoFar {
            names: HashSet::new(alloc),
        }
    }

    /// No names, with room for a number of them.
    pub fn with_room(alloc: Global, room: usize) -> Result<NamesSoFar, AllocError>
        ensures { IfOk result (λ names. (name : List ℕ) → has_name names name ≡ false) }
    {
        let names = HashSet::with_capacity(alloc, room)?;
        Ok(NamesSoFar { names })
    }

    /// Adds a name, and returns whether it is new.
    pub fn add(&mut self, name: &str) -> Result<bool, AllocError>
        requires { length name.now ≤ NAME_MOST }
        ensures is_new { IfOk result (λ is_new. is_new ≡ not (has_name self.old name.now)) }
        ensures names { IfOk result (λ _. (other : List ℕ)
            → has_name self.new other ≡ (bytes_eq name.now other || has_name self.old other)) }
    {
        let Ok(name) = ArrayString::from(name) else {
            unreachable!();
        };
        let Ok(is_new) = self.names.insert(name) else {
            return Err(AllocError);
        };
        Ok(is_new)
    }
}
