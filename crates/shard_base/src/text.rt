ghost use Rattle.std.specs.Prelude.{◌≡◌, ◌==◌, length, nat_le, Some, None, if◌then◌else◌};

use std::cmp::Ordering;
use std::marker::Model;

/// A text of at most `N` bytes, kept in place, which contracts see as the list of its bytes. Past its end the bytes are 0.
#[derive(Clone, Copy, Debug)]
pub struct Text<const N: usize> {
    bytes: [u8; N],
    len: usize,
}

impl<const N: usize> Model for Text<N> {
    ghost use Rattle.std.specs.Prelude.{List, ℕ, ◌++◌, ◌-◌, length, take, replicate};
    ghost use Rattle.std.specs.Coded.{coded_list, coded_ℕ};
    ghost use Rattle.shard_base.specs.Padded.{IsPadded, padded_again, length_again};

    ghost Value = { List ℕ };

    ghost coded = { coded_list coded_ℕ };

    ghost view = { λ text. take text.len text.bytes };

    ghost invariant = { λ text. IsPadded N text.bytes text.len };

    ghost inverse = { λ bytes. record { bytes = bytes ++ replicate (N - length bytes) 0; len = length bytes } };

    ghost inverse_ok = { λ text padded i. record {
      bytes = padded_again N text.bytes text.len padded i;
      len = length_again N text.bytes text.len padded i;
    } };
}

impl<const N: usize> Text<N> {
    /// The text, if it has at most `N` bytes.
    pub fn from_slice(text: &[u8]) -> Option<Text<N>>
        ensures { result ≡ (if nat_le (length text.now) N then Some text.now else None) }
    {
        if text.len() > N {
            return None;
        }
        let mut bytes = [0; N];
        for (i, byte) in text.iter().enumerate() {
            bytes[i] = *byte;
        }
        Some(Text {
            bytes,
            len: text.len(),
        })
    }

    /// Its bytes.
    pub fn as_slice(&self) -> &[u8]
        ensures { result.now ≡ self.now }
    {
        &self.bytes[..self.len]
    }

    /// How many bytes it has.
    pub fn len(&self) -> usize
        ensures { result ≡ length self.now }
    {
        self.len
    }

    /// Whether it has no byte.
    pub fn is_empty(&self) -> bool
        ensures { result ≡ (length self.now == 0) }
    {
        self.len == 0
    }
}

impl<const N: usize> PartialEq for Text<N> {
    ghost use Rattle.std.specs.Str.{bytes_eq};
    ghost use Rattle.std.specs.Cmp.{partial_equiv_from_equiv};
    ghost use Rattle.std.specs.Cmp.Lexicographic.{nat_list_eq_equiv};

    ghost eq = { bytes_eq };

    ghost laws = { partial_equiv_from_equiv nat_list_eq_equiv };

    fn eq(&self, other: &Self) -> bool {
        self.as_slice() == other.as_slice()
    }
}

impl<const N: usize> Eq for Text<N> {
    ghost use Rattle.std.specs.Cmp.Lexicographic.{nat_list_eq_equiv};

    ghost laws = { nat_list_eq_equiv };
}

impl<const N: usize> PartialOrd for Text<N> {
    ghost use Rattle.std.proofs.Common.{rules};
    ghost use Rattle.std.specs.Cmp.Rules.{comparing};
    ghost use Rattle.std.specs.Ordering.{nat_cmp, as_partial_cmp};
    ghost use Rattle.std.specs.Cmp.Lexicographic.{slice_cmp};

    ghost partial_cmp = { as_partial_cmp (slice_cmp nat_cmp) };

    ghost laws = { Prim.search (comparing, rules) };

    fn partial_cmp(&self, other: &Self) -> Option<Ordering> {
        Some(self.cmp(other))
    }
}

impl<const N: usize> Ord for Text<N> {
    ghost use Rattle.std.proofs.Common.{rules};
    ghost use Rattle.std.specs.Cmp.Rules.{comparing};
    ghost use Rattle.std.specs.Ordering.{nat_cmp};
    ghost use Rattle.std.specs.Cmp.Lexicographic.{slice_cmp, nat_list_cmp_total};

    ghost cmp = { slice_cmp nat_cmp };

    ghost total = { nat_list_cmp_total };

    ghost matches_partial_cmp = { Prim.search (comparing, rules) };

    ghost matches_eq = { Prim.search (comparing, rules) };

    fn cmp(&self, other: &Self) -> Ordering {
        self.as_slice().cmp(&other.as_slice())
    }
}
