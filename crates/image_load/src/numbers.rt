// The numbers of a table's atoms.

use heap_terms::AtomNumbers;
use hipe_terms::Atom;
use image_link::AtomTable;

// A table of atoms, which finds the number of each by its hash.
#[derive(Clone, Copy)]
pub(crate) struct TableNumbers<'a> {
    pub table: &'a AtomTable,
}

impl AtomNumbers for TableNumbers<'_> {
    ghost atoms = { λ t. t.table.now };

    #[tactic(auto, using(crate::proofs::Finding::numbers))]
    fn number(&self, atom: &Atom) -> usize {
        match self.table.number(atom) {
            Some(number) => number as usize,
            None => self.table.len() as usize,
        }
    }
}
