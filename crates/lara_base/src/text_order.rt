//! The orders of texts: by their bytes, with `over` after all texts, and by their lengths first.
ghost use Rattle.std.specs.Prelude.{◌≡◌};
ghost use Rattle.lara_base.specs.Texts.{bytes_cmp, length_cmp};

use crate::text::{Content, Text};
use std::cmp::Ordering;

impl Content {
    /// How two texts compare by their bytes: the first that differ decide, and a text comes before each longer one
    /// that begins with it.
    pub fn compare(&self, other: &Content) -> Ordering
        ensures { result ≡ bytes_cmp self.now other.now }
    {
        self.bytes().as_slice().cmp(&other.bytes().as_slice())
    }

    /// How two texts compare by their lengths, and where those are equal by their bytes.
    pub fn compare_lengths_first(&self, other: &Content) -> Ordering
        ensures { result ≡ length_cmp self.now other.now }
    {
        match self.bytes().len().cmp(&other.bytes().len()) {
            Ordering::Equal => self.compare(other),
            unequal => unequal,
        }
    }
}

impl PartialEq for Text {
    ghost use Rattle.std.specs.Ordering.{eq_by_cmp};
    ghost use Rattle.std.specs.Cmp.{eq_by_cmp_equiv, partial_equiv_from_equiv};
    ghost use Rattle.lara_base.specs.Texts.{text_cmp, text_cmp_total};

    ghost eq = { eq_by_cmp text_cmp };

    ghost laws = { partial_equiv_from_equiv (eq_by_cmp_equiv text_cmp_total) };

    fn eq(&self, other: &Text) -> bool {
        self.cmp(other).is_eq()
    }
}

impl Eq for Text {
    ghost use Rattle.std.specs.Cmp.{eq_by_cmp_equiv};
    ghost use Rattle.lara_base.specs.Texts.{text_cmp_total};

    ghost laws = { eq_by_cmp_equiv text_cmp_total };
}

impl PartialOrd for Text {
    ghost use Rattle.std.specs.Prelude.{refl};
    ghost use Rattle.std.specs.Ordering.{as_partial_cmp};
    ghost use Rattle.std.specs.Cmp.{partial_order_from_agreeing_total};
    ghost use Rattle.lara_base.specs.Texts.{text_cmp, text_cmp_total};

    ghost partial_cmp = { as_partial_cmp text_cmp };

    ghost laws = { partial_order_from_agreeing_total text_cmp text_cmp_total (λ x y. refl) (λ x y. refl) };

    fn partial_cmp(&self, other: &Text) -> Option<Ordering> {
        Some(self.cmp(other))
    }
}

impl Ord for Text {
    ghost use Rattle.std.specs.Prelude.{refl};
    ghost use Rattle.lara_base.specs.Texts.{text_cmp, text_cmp_total};

    ghost cmp = { text_cmp };

    ghost total = { text_cmp_total };

    ghost matches_partial_cmp = { λ x y. refl };

    ghost matches_eq = { λ x y. refl };

    fn cmp(&self, other: &Text) -> Ordering {
        match (self, other) {
            (Text::Within(a), Text::Within(b)) => a.compare(b),
            (Text::Within(_), Text::Over) => Ordering::Less,
            (Text::Over, Text::Within(_)) => Ordering::Greater,
            (Text::Over, Text::Over) => Ordering::Equal,
        }
    }
}
