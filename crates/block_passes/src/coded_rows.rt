// Rows with codes, and the rows of each code.
ghost use Rattle.std.specs.Prelude.{◌≡◌, ◌<◌, ℕ, List, [], IfOk, Option, slice_index_or};
ghost use Rattle.block_passes.specs.CodedRows.{rows_of_code};
ghost use Rattle.block_passes.specs.Numbering.{code_if, number_among};

use crate::groups::Groups;
use crate::numbering::Numbering;
use link_base::NoMemory;
use std::alloc::Global;

/// Rows that have a code each, or none.
pub(crate) trait CodedRows {
    /// How many rows there are.
    ghost count: { Self → ℕ };

    /// The code of a row.
    ghost code_of: { Self → ℕ → Option (List ℕ) };

    /// Each code can be made.
    ghost are_ready: { Self → Type 0 };

    /// How many rows there are.
    fn rows(&self) -> u32
        ensures { result ≡ count self.now };

    /// Puts the code of a row in place of what stood in `code`, and tells whether the row has one.
    fn put_code(&self, at: u32, code: &mut Vec<u8>) -> Result<bool, NoMemory>
        requires at { at < count self.now }
        requires ready { are_ready self.now }
        ensures { IfOk result (λ has_code. code_if has_code code.new.items ≡ code_of self.now at) };
}

/// The rows of a file by the numbers of their codes.
#[derive(Drop)]
pub(crate) struct RowsByCode {
    pub(crate) numbering: Numbering,
    pub(crate) groups: Groups,
}

impl RowsByCode {
    /// The rows of each code.
    pub(crate) fn of<K: CodedRows>(alloc: Global, keys: &K) -> Result<RowsByCode, NoMemory>
        requires { K.are_ready keys.now }
        ensures { IfOk result (λ rows. (code : Option (List ℕ)) → slice_index_or rows.groups (number_among rows.numbering code) [] ≡ rows_of_code (K.code_of keys.now) (K.count keys.now) code) }
    {
        let mut numbering = Numbering::new(alloc)?;
        let mut numbers = Vec::with_capacity(alloc, keys.rows() as usize)?;
        let mut code = Vec::new(alloc);
        for at in 0..keys.rows() {
            let has_code = keys.put_code(at, &mut code)?;
            let number = numbering.number(alloc, has_code, &code)?;
            numbers.push(number)?;
        }
        let groups = Groups::new(alloc, &numbers, numbering.count())?;
        Ok(RowsByCode { numbering, groups })
    }
}
