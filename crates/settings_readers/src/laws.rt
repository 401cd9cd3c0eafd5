// Laws of the definitions.
ghost use Rattle.std.specs.Prelude.{◌≡◌, ◌++◌, List, ℕ, Bool, true, Err};
ghost use Rattle.toml.specs.Data.{Members};
ghost use Rattle.toml.specs.View.{table_view};
ghost use Rattle.settings_readers.specs.declared.fault.KeyFault.{KeyFault};
ghost use Rattle.settings_readers.specs.declared.fault.KeyFault.TheVariants as fault;
ghost use Rattle.settings_readers.specs.Values.{known};
ghost use Rattle.settings_readers.specs.KeyFaults.{keys_ascend, IsLeastUnknown};

use toml::Table;

/// The keys of every table ascend by their bytes.
#[tactic(auto, using(crate::proofs::Lemmas::sorted_ascend))]
pub fn keys_ascend(table: &Table)
    ensures { keys_ascend (table_view table.now) ≡ true }
{
    let _len = table.len();
}

/// Where keys ascend, the key that is refused as unknown is the least of those that are not known.
pub fn least_unknown_key()
    ensures { (is_known : List ℕ → Bool) (t : Members) (above : List ℕ) (f : KeyFault)
        → keys_ascend t ≡ true → known is_known t above ≡ Err f
        → (key : List ℕ) × (f ≡ fault.UnknownKey (above ++ key)) × IsLeastUnknown is_known t key }
{}
