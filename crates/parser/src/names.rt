// The names that a script declares: variables and tables share one space of names.
ghost use Rattle.std.specs.Prelude.{◌≡◌, ℕ, ◌<◌, ◌||◌, List, [], map, slice_index_or, vec_len};
ghost use Rattle.lexer.specs.Words.{same, among};
ghost use Rattle.language_theory.specs.Graphs.{var_names, table_names, no_table};
ghost use Rattle.parser.specs.Models.{vars_of, tabs_of, LooksUp, Finds};

use crate::{Table, Variable};
use base::{Place, Reason, Refusal};
use language_theory::Range;
use std::alloc::Global;

#[derive(Drop)]
pub struct Names {
    pub variables: Vec<Variable>,
    pub tables: Vec<Table>,
}

// What is declared under a name, and the name as bytes.
pub trait Named {
    ghost called: { Self → List ℕ };

    fn name(&self) -> &[u8]
        ensures { result.now ≡ called self.now };
}

impl Named for Variable {
    ghost called = { λ v. v.name.items };

    fn name(&self) -> &[u8] {
        self.name.as_slice()
    }
}

impl Named for Table {
    ghost called = { λ t. t.name.items };

    fn name(&self) -> &[u8] {
        &self.name
    }
}

// Whether two names are the same: `==`, told in the words of the definition.
pub(crate) fn same_name(a: &[u8], b: &[u8]) -> bool
    ensures { result ≡ same a.now b.now }
{
    a == b
}

// Whether this is declared under this name.
fn is_called<T: Named>(x: &T, name: &[u8]) -> bool
    ensures { result ≡ same name.now (T.Named.called x.now) }
{
    same_name(name, x.name())
}

// The number of the first that has this name. Searched from the front, without a map: there are at most eight, numbered as declared.
fn position<T: Named>(list: &[T], name: &[u8]) -> Option<usize>
    ensures { LooksUp name.now (map T.Named.called list.now) result }
{
    list.iter().position(|x| is_called(x, name))
}

// The number of the first that has this name; if none has, the refusal at the place where the name stands.
fn find<T: Named>(list: &[T], name: &[u8], place: Place) -> Result<usize, Refusal>
    ensures { Finds name.now (map T.Named.called list.now) place result }
{
    position(list, name).ok_or(Refusal::at(Reason::Undeclared, place))
}

impl Names {
    // No name is declared.
    pub(crate) fn new(heap: Global) -> Names
        ensures { (vars_of result ≡ []) × (tabs_of result ≡ []) }
    {
        Names {
            variables: Vec::new(heap),
            tables: Vec::new(heap),
        }
    }

    // Whether this name is declared.
    pub(crate) fn has(&self, name: &[u8]) -> bool
        ensures { result ≡ (among name.now (var_names (vars_of self.now)) || among name.now (table_names (tabs_of self.now))) }
    {
        position(self.variables.as_slice(), name).is_some()
            || position(self.tables.as_slice(), name).is_some()
    }

    // The number of the variable of this name; if there is none, the refusal at the place where the name stands.
    // Callers take the name first: a call that took and looked up would have to promise both refusals in one clause.
    pub(crate) fn variable(&self, name: &[u8], place: Place) -> Result<usize, Refusal>
        ensures { Finds name.now (var_names (vars_of self.now)) place result }
    {
        find(self.variables.as_slice(), name, place)
    }

    // The number of the table of this name; if there is none, the refusal at the place where the name stands.
    pub(crate) fn table(&self, name: &[u8], place: Place) -> Result<usize, Refusal>
        ensures { Finds name.now (table_names (tabs_of self.now)) place result }
    {
        find(self.tables.as_slice(), name, place)
    }

    // The size and the range of a table.
    pub(crate) fn shape(&self, table: usize) -> (u32, Range)
        requires { table < vec_len self.now.tables }
        ensures { (result.0 ≡ (slice_index_or (tabs_of self.now) table no_table).size) × (result.1 ≡ (slice_index_or (tabs_of self.now) table no_table).range) }
    {
        let table = &self.tables[table];
        (table.size, table.range)
    }
}
