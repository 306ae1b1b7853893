// Names in the order of their declarations, found by hashing.

ghost use Rattle.std.specs.Prelude.{◌≡◌, [], ◌∷◌, ◌++◌, map, take, length, OnOk, OnErr};
ghost use Rattle.loop_rules.specs.Names.{is_in};
ghost use Rattle.loop_rules.specs.Index.{IsIndex};
ghost use Rattle.loop_rules.specs.Search.{first_at};

use std::alloc::Global;
use std::collections::HashMap;
use std::marker::Model;
use tp_value::NoMemory;

/// Visible names, which contracts see as their list. A name is found in the time of a hash.
#[derive(Drop)]
pub struct Scope<'a> {
    names: Vec<&'a [u8]>,
    // for each name among them the place where it stands first; a place of an older scope too,
    // where it no longer stands
    first: HashMap<&'a [u8], usize>,
}

impl<'a> Model for Scope<'a> {
    ghost use Rattle.std.specs.Prelude.{ℕ, List, map};
    ghost use Rattle.loop_rules.specs.Index.{IsIndex};

    ghost Value = { List (List ℕ) };

    ghost view = { λ s. map (λ n. n.now) s.names.items };

    ghost invariant = { λ s. IsIndex s.first (map (λ n. n.now) s.names.items) };
}

// Where a name stands first, found in its table.
fn index_of(first: &HashMap<&[u8], usize>, names: &[&[u8]], name: &[u8]) -> Option<usize>
    requires { IsIndex first.now (map (λ n. n.now) names.now) }
    ensures { result ≡ first_at (map (λ n. n.now) names.now) name.now }
{
    let k = *first.get(name)?;
    if k >= names.len() {
        return None;
    }
    if names[k] == name { Some(k) } else { None }
}

// Puts the next name into the table.
fn remember<'a>(
    first: &mut HashMap<&'a [u8], usize>,
    names: &[&'a [u8]],
    name: &'a [u8],
) -> Result<(), NoMemory>
    requires { IsIndex first.old (map (λ n. n.now) names.now) }
    ensures ok { OnOk result (IsIndex first.new (map (λ n. n.now) names.now ++ name.now ∷ [])) }
    ensures err { OnErr result (IsIndex first.new (map (λ n. n.now) names.now)) }
{
    match index_of(first, names, name) {
        Some(_) => Ok(()),
        None => {
            first.insert(name, names.len())?;
            Ok(())
        }
    }
}

impl<'a> Scope<'a> {
    /// No names.
    pub fn new(alloc: Global) -> Scope<'a>
        ensures { result ≡ [] }
    {
        Scope {
            names: Vec::new(alloc),
            first: HashMap::new(alloc),
        }
    }

    /// How many names are visible.
    pub fn len(&self) -> usize
        ensures { result ≡ length self.now }
    {
        self.names.len()
    }

    /// Where a name stands first.
    pub fn position(&self, name: &[u8]) -> Option<usize>
        ensures { result ≡ first_at self.now name.now }
    {
        index_of(&self.first, &self.names, name)
    }

    /// Whether a name is visible.
    #[tactic(auto, using(crate::proofs::Indexing::is_some_first_at))]
    pub fn contains(&self, name: &[u8]) -> bool
        ensures { result ≡ is_in self.now name.now }
    {
        self.position(name).is_some()
    }

    /// Makes a name visible.
    pub fn declare(&mut self, name: &'a [u8]) -> Result<(), NoMemory>
        ensures { OnOk result (self.new ≡ self.old ++ name.now ∷ []) }
    {
        remember(&mut self.first, &self.names, name)?;
        self.names.push(name)?;
        Ok(())
    }

    /// Leaves the first names visible.
    pub fn leave(&mut self, count: usize)
        ensures { self.new ≡ take count self.old }
    {
        self.names.truncate(count);
    }
}
