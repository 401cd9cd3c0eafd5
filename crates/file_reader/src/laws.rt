// Laws of the definition of a table.
ghost use Rattle.std.specs.Prelude.{◌≡◌, List, ℕ, Err, Ok};
ghost use Rattle.link_base.specs.declared.fault.Fault.{Fault};
ghost use Rattle.link_base.specs.declared.fault.FileRole.{FileRole};
ghost use Rattle.file_reader.specs.Table.{IsFirstFault, IsWholeTable, table_of};
ghost use Rattle.file_reader.specs.Rows.{Wanted, TableRow};
ghost use Rattle.file_reader.specs.Takers.{IsTableFor};

/// Law: the fault of a file is the first one of its header, and else that of its least faulty row: no row
/// before that one has a fault.
#[tactic(auto, using(crate::specs::TableLaws::fault_is_first))]
pub fn first_fault()
    ensures { (role : FileRole) (wanted : Wanted) (records : List (List (List ℕ))) (f : Fault)
        → table_of role wanted records ≡ Err f → IsFirstFault role wanted records f }
{}

/// Law: a table has all rows of its file, in order, and no one of them has a fault.
#[tactic(auto, using(crate::specs::TableLaws::table_is_whole))]
pub fn whole_table()
    ensures { (role : FileRole) (wanted : Wanted) (records : List (List (List ℕ))) (table : List TableRow)
        → table_of role wanted records ≡ Ok table → IsWholeTable role wanted records table }
{}

/// Law: a table has at most as many rows as are wanted; each has a text for each wanted column, and, where an id is
/// wanted, an id that no other has.
#[tactic(auto, using(crate::specs::TableLaws::table_sound))]
pub fn sound_table()
    ensures { (role : FileRole) (wanted : Wanted) (records : List (List (List ℕ))) (table : List TableRow)
        → table_of role wanted records ≡ Ok table → IsTableFor wanted table }
{}
