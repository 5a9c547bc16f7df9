ghost use Rattle.std.specs.Prelude.{◌≡◌, [], ◌∷◌, ◌++◌, List, ℕ, IfOk, OnErr, OnOk};
ghost use Rattle.std.specs.List.{list_any};
ghost use Rattle.zone_key.specs.Expr.{is_same};
ghost use Rattle.config_rules.specs.Names.{HasJust, has_bytes};
ghost use Rattle.config_rules.specs.Words.{is_same_name};

use sqlite_items::Items;
use std::alloc::Global;
use std::collections::BTreeSet;
use std::marker::Model;
use zone_outside::{NoMemory, Text};

/// Names in the order in which they were added, which are looked up byte for byte.
///
/// Beside the names stands an ordered set of their bytes, so that a look-up takes time with the logarithm of
/// their number. Contracts see the names alone.
#[derive(Drop)]
pub struct NameSet {
    names: Items<Text>,
    known: BTreeSet<Vec<u8>>,
}

impl Model for NameSet {
    ghost use Rattle.std.specs.Prelude.{List, ℕ};
    ghost use Rattle.config_rules.specs.Names.{HasJust};

    ghost Value = { List (List ℕ) };

    ghost view = { λ s. s.names };

    ghost invariant = { λ s. HasJust s.known s.names };
}

/// Names in the order in which they were added, which are looked up without regard to the case of ASCII letters.
///
/// Beside the names stands an ordered set of their bytes in lower case. Contracts see the names alone.
#[derive(Drop)]
pub struct CaselessNames {
    names: Items<Text>,
    known: BTreeSet<Vec<u8>>,
}

impl Model for CaselessNames {
    ghost use Rattle.std.specs.Prelude.{List, ℕ, map};
    ghost use Rattle.std.specs.Str.{str_to_ascii_lowercase};
    ghost use Rattle.config_rules.specs.Names.{HasJust};

    ghost Value = { List (List ℕ) };

    ghost view = { λ s. s.names };

    ghost invariant = { λ s. HasJust s.known (map str_to_ascii_lowercase s.names) };
}

/// Whether a set has these bytes.
fn has_bytes(known: &BTreeSet<Vec<u8>>, bytes: &[u8]) -> bool
    ensures { result ≡ has_bytes bytes.now known.now }
{
    known.contains(bytes)
}

/// Adds bytes to a set.
fn add_bytes(known: &mut BTreeSet<Vec<u8>>, bytes: Vec<u8>) -> Result<(), NoMemory>
    ensures ok { OnOk result ((names : List (List ℕ)) → HasJust known.old names → HasJust known.new (names ++ bytes.items ∷ [])) }
    ensures err { OnErr result (known.new ≡ known.old) }
{
    known.insert(bytes)?;
    Ok(())
}

/// Adds a name, with these bytes to a set. Both stay as they are where there is no memory.
fn add_both(
    names: &mut Items<Text>,
    known: &mut BTreeSet<Vec<u8>>,
    name: Text,
    bytes: Vec<u8>,
) -> Result<(), NoMemory>
    ensures name { OnOk result (names.new ≡ names.old ++ name ∷ []) }
    ensures bytes { OnOk result ((all : List (List ℕ)) → HasJust known.old all → HasJust known.new (all ++ bytes.items ∷ [])) }
    ensures names_stay { OnErr result (names.new ≡ names.old) }
    ensures known_stay { OnErr result (known.new ≡ known.old) }
{
    names.push(name)?;
    match add_bytes(known, bytes) {
        Ok(()) => Ok(()),
        Err(error) => {
            names.pop();
            Err(error)
        }
    }
}

impl NameSet {
    /// No names.
    pub(crate) fn new(alloc: Global) -> NameSet
        ensures { result ≡ [] }
    {
        NameSet {
            names: Items::new(alloc),
            known: BTreeSet::new(alloc),
        }
    }

    /// Whether this name is one of them.
    pub(crate) fn has(&self, name: &[u8]) -> bool
        ensures { result ≡ list_any (is_same name.now) self.now }
    {
        has_bytes(&self.known, name)
    }

    /// Adds a name. Where there is no memory for it, the names stay as they are.
    pub(crate) fn add(&mut self, alloc: Global, name: &[u8]) -> Result<(), NoMemory>
        ensures ok { OnOk result (self.new ≡ self.old ++ name.now ∷ []) }
        ensures err { OnErr result (self.new ≡ self.old) }
    {
        let text = Text::of(alloc, name)?;
        let bytes = name.to_vec(alloc)?;
        add_both(&mut self.names, &mut self.known, text, bytes)
    }
}

impl CaselessNames {
    /// No names.
    pub(crate) fn new(alloc: Global) -> CaselessNames
        ensures { result ≡ [] }
    {
        CaselessNames {
            names: Items::new(alloc),
            known: BTreeSet::new(alloc),
        }
    }

    /// Whether this name is one of them, but for the case of ASCII letters.
    pub(crate) fn has(&self, alloc: Global, name: &[u8]) -> Result<bool, NoMemory>
        ensures { IfOk result (λ found. found ≡ list_any (is_same_name name.now) self.now) }
    {
        let bytes = name.to_ascii_lowercase(alloc)?;
        Ok(has_bytes(&self.known, &bytes))
    }

    /// Adds a name. Where there is no memory for it, the names stay as they are.
    pub(crate) fn add(&mut self, alloc: Global, name: &[u8]) -> Result<(), NoMemory>
        ensures ok { OnOk result (self.new ≡ self.old ++ name.now ∷ []) }
        ensures err { OnErr result (self.new ≡ self.old) }
    {
        let text = Text::of(alloc, name)?;
        let bytes = name.to_ascii_lowercase(alloc)?;
        add_both(&mut self.names, &mut self.known, text, bytes)
    }
}
