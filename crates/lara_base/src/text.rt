//! Short texts.
ghost use Rattle.std.specs.Prelude.{◌≡◌, ◌≤◌, ◌<◌, ◌++◌, [], true, false, length, All, IsOk, IfOk, MatchOption};
ghost use Rattle.lara_base.specs.Texts.{is_content, is_text, has_bytes};

use crate::copied::Copied;
use crate::list::{Bytes, List};
use std::alloc::{AllocError, Global};
use std::marker::Model;

/// The bytes of a text: at most 1,024.
#[derive(Drop)]
pub struct Content {
    bytes: Bytes,
}

impl Model for Content {
    ghost use Rattle.std.specs.Prelude.{List, ℕ, length, ◌≤◌};

    ghost Value = { List ℕ };

    ghost view = { λ c. c.bytes };

    ghost invariant = { λ c. length c.bytes ≤ 1024 };
}

// Tells a proof that the items are bytes.
fn known_bytes(bytes: &[u8])
    ensures { All (λ b. b < 256) bytes.now }
{
    let _bytes = bytes;
}

impl Content {
    /// The empty text, which holds no memory.
    pub fn empty(alloc: Global) -> Content
        ensures { result ≡ [] }
    {
        Content {
            bytes: List::new(alloc),
        }
    }

    /// The text of these bytes, where they are few enough.
    pub fn new(bytes: Bytes) -> Option<Content>
        ensures { MatchOption result (1024 < length bytes) (λ c. c ≡ bytes) }
    {
        if bytes.len() <= 1024 {
            Some(Content { bytes })
        } else {
            None
        }
    }

    /// The bytes in place, with no copy.
    pub fn bytes(&self) -> &Bytes
        ensures value { result.now ≡ self.now }
        ensures short { length self.now ≤ 1024 }
    {
        &self.bytes
    }

    /// Tells a proof that this is a text. It does nothing when it runs.
    pub fn known(&self)
        ensures { is_content self.now ≡ true }
    {
        known_bytes(self.bytes.as_slice());
    }

    /// The text of both, with `other` behind, or `None` where that is more than 1,024 bytes, which takes no memory.
    /// Each byte is copied once.
    pub fn concat(&self, alloc: Global, other: &Content) -> Result<Option<Content>, AllocError>
        ensures text { IfOk result (λ r. MatchOption r (1024 < length (self.now ++ other.now)) (λ c. c ≡ self.now ++ other.now)) }
        ensures over { 1024 < length (self.now ++ other.now) → IsOk result }
    {
        let len = self.bytes.len() + other.bytes.len();
        if len > 1024 {
            return Ok(None);
        }
        let mut bytes = List::from_vec(Vec::with_capacity(alloc, len)?);
        bytes.extend_from_slice(self.bytes.as_slice())?;
        bytes.extend_from_slice(other.bytes.as_slice())?;
        Ok(Some(Content { bytes }))
    }
}

impl Copied for Content {
    fn copy(&self, alloc: Global) -> Result<Self, AllocError>
        ensures same { IfOk result (λ r. r ≡ self.now) }
        ensures empty { self.now ≡ [] → IsOk result }
    {
        Ok(Content {
            bytes: self.bytes.copy(alloc)?,
        })
    }
}

/// A text, or what stands for every longer one.
#[derive(Drop)]
pub enum Text {
    Within(Content),
    Over,
}

impl Text {
    /// Tells a proof that this is a text or `Over`. It does nothing when it runs.
    pub fn known(&self)
        ensures { is_text self.now ≡ true }
    {
        if let Text::Within(content) = self {
            content.known();
        }
    }
}

impl Copied for Text {
    fn copy(&self, alloc: Global) -> Result<Self, AllocError>
        ensures same { IfOk result (λ r. r ≡ self.now) }
        ensures exact { has_bytes self.now ≡ false → IsOk result }
    {
        match self {
            Text::Within(c) => Ok(Text::Within(c.copy(alloc)?)),
            Text::Over => Ok(Text::Over),
        }
    }
}
