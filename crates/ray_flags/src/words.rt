ghost use Rattle.std.specs.Prelude.{ℕ, ◌≡◌, ◌↔◌, IsTrue, Some, Contains, option_map};
ghost use Rattle.bitflags.specs.Sets.{find_name};
ghost use Rattle.ray_flags.specs.Words.{has_own_words};

use bitflags::Flags;

// A set whose flags have words of their own: what the sets that a recording names share.
pub(crate) trait Words: Flags {
    // The table is the set's, and each of its rows has a word of its own.
    ghost own: { Self.exact × IsTrue (has_own_words Self.table) };

    // The flag of a word.
    final fn of_word(word: &str) -> Option<Self>
        ensures found { option_map Self.set_of result ≡ find_name Self.table word.now }
        ensures row { (bits : ℕ)
            → (option_map Self.set_of result ≡ Some bits) ↔ Contains Self.table (word.now, bits) }
    {
        Self::from_name(word)
    }
}

// The flags of a set, each with its word.
macro_rules! flag_list {
    ($($word:literal => $flag:expr),* $(,)?) => {
        &[$(Flag { name: $word, value: $flag }),*]
    };
}

pub(crate) use flag_list;
