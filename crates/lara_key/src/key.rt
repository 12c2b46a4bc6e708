//! Key columns and tuples of them.
ghost use Rattle.std.specs.Prelude.{◌≡◌, true, false, IfOk, IsOk};
ghost use Rattle.std.specs.List.{list_any};
ghost use Rattle.lara_key.specs.Keys.{same_key_type, key_type_of, has_key_type, key_is_over, key_holds_text};

use lara_base::{Copied, List, Text};
use std::alloc::{AllocError, Global};

/// The type of a key column.
#[derive(Clone, Copy, Debug, PartialEq, Eq)]
pub enum KeyType {
    Nat,
    Text,
    Flag,
}

/// One column of a key.
#[derive(Drop)]
pub enum KeyVal {
    Nat(u64),
    Text(Text),
    Flag(bool),
}

/// A key: one column for each key column of its table.
pub type Tuple = List<KeyVal>;

impl Copied for KeyType {
    fn copy(&self, _alloc: Global) -> Result<KeyType, AllocError>
        ensures same { IfOk result (λ r. r ≡ self.now) }
        ensures exact { IsOk result }
    {
        Ok(*self)
    }
}

impl Copied for KeyVal {
    fn copy(&self, alloc: Global) -> Result<KeyVal, AllocError>
        ensures same { IfOk result (λ r. r ≡ self.now) }
        ensures exact { key_holds_text self.now ≡ false → IsOk result }
    {
        match self {
            KeyVal::Nat(n) => Ok(KeyVal::Nat(*n)),
            KeyVal::Text(t) => Ok(KeyVal::Text(t.copy(alloc)?)),
            KeyVal::Flag(b) => Ok(KeyVal::Flag(*b)),
        }
    }
}

/// Whether two types of key columns are one.
pub fn same_key_type(a: KeyType, b: KeyType) -> bool
    ensures { result ≡ same_key_type a b }
{
    match (a, b) {
        (KeyType::Nat, KeyType::Nat) => true,
        (KeyType::Text, KeyType::Text) => true,
        (KeyType::Flag, KeyType::Flag) => true,
        _ => false,
    }
}

impl KeyVal {
    /// Tells a proof that the column is one of its type. It does nothing when it runs.
    #[tactic(auto, unfolding(crate::specs::Keys::has_key_type))]
    pub fn known(&self)
        ensures { has_key_type (key_type_of self.now) self.now ≡ true }
    {
        match self {
            KeyVal::Nat(n) => {
                let _number = *n;
            }
            KeyVal::Text(t) => t.known(),
            KeyVal::Flag(_) => {}
        }
    }

    /// Whether the column stands for all that are beyond the range of its type.
    #[tactic(auto, unfolding(crate::specs::Keys::key_is_over))]
    pub fn is_over(&self) -> bool
        ensures { result ≡ key_is_over self.now }
    {
        match self {
            KeyVal::Nat(n) => *n == u64::MAX,
            KeyVal::Text(t) => matches!(t, Text::Over),
            KeyVal::Flag(_) => false,
        }
    }
}

/// Whether a column of the key is `over`.
pub fn is_key_over(key: &Tuple) -> bool
    ensures { result ≡ list_any key_is_over key.now }
{
    key.as_slice().iter().any(|column| column.is_over())
}
