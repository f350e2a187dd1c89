//! Laws that join the grammar, reading and writing (clause 20.2). Each function does nothing: what
//! it ensures is the law.

ghost use Rattle.std.specs.Prelude.{◌≡◌, ◌<◌, ◌≤◌, ◌+◌, ℕ, ℤ, List, [], ◌++◌, length, Ok};
ghost use Rattle.std.specs.Prelude.{slice_index_or};
ghost use Rattle.bac_wire.specs.Level.{IsLevel};
ghost use Rattle.bac_wire.specs.Canon.{tag_octets, unsigned_octets, signed_octets, contents_of};
ghost use Rattle.bac_wire.specs.Canon.{canon, canon_context, IsValid};
ghost use Rattle.bac_wire.specs.Encoding.{value_octets, context_octets};
ghost use Rattle.bac_wire.specs.Primitive.{Primitive};
ghost use Rattle.bac_wire.specs.Reading.{value_at, context_at, contents_as, mark_at};
ghost use Rattle.bac_wire.specs.Spelling.{IsTag, IsTagged, Spells, StandsFor, tag_of};

/// Decoding is unambiguous: no encoding is a prefix of another, and none encodes two values.
pub fn one_reading()
    ensures { (a b x y : List ℕ) (v w : Primitive) → Spells a v → Spells b w → a ++ x ≡ b ++ y
        → (a ≡ b) × (v ≡ w) }
{}

/// What is written for a value is an encoding of it.
pub fn canon_is_read()
    ensures { (value : Primitive) → IsValid value → Spells (canon value) value }
{}

/// No encoding of a value, with its application tag or after a context tag, has fewer octets than
/// what is written for it. The same holds for opening and closing tags, whose three low bits are
/// `low`.
pub fn canon_is_shortest()
    ensures value { (value : Primitive) (text : List ℕ) → ((i : ℕ) → slice_index_or text i 0 < 256)
        → IsValid value → Spells text value → length (canon value) ≤ length text }
    ensures context { (tag : ℕ) (value : Primitive) (contents text : List ℕ)
        → ((i : ℕ) → slice_index_or text i 0 < 256) → IsValid value → IsTagged 8 tag contents text
        → StandsFor contents value → length (canon_context tag value) ≤ length text }
    ensures mark { (tag low : ℕ) (text : List ℕ) → IsTag 8 tag low text
        → length (tag_octets 8 tag low) ≤ length text }
{}

/// What is written for a value is read back as that value, whatever follows it.
pub fn value_is_read_back()
    ensures { (value : Primitive) (rest : List ℕ) → IsValid value
        → value_at (canon value ++ rest) ≡ Ok (value, rest) }
{}

/// What is written for a value after a context tag is read back as its contents, whatever follows
/// it, and the contents as that value.
pub fn context_is_read_back()
    ensures contents { (tag : ℕ) (value : Primitive) (rest : List ℕ) → tag < 255 → IsValid value
        → context_at tag (canon_context tag value ++ rest) ≡ Ok (contents_of value, rest) }
    ensures value { (value : Primitive) → IsValid value
        → contents_as (tag_of value) (contents_of value) ≡ Ok value }
{}

/// Contents are read as a value of a type if and only if they encode it.
pub fn contents_have_one_value()
    ensures found { (tag : ℕ) (contents : List ℕ) (value : Primitive) → tag ≤ 12
        → contents_as tag contents ≡ Ok value → (tag_of value ≡ tag) × StandsFor contents value }
    ensures only { (contents : List ℕ) (value : Primitive) → StandsFor contents value
        → contents_as (tag_of value) contents ≡ Ok value }
{}

/// Opening and closing tags are read back, whatever follows them.
pub fn marks_are_read_back()
    ensures opening { (tag : ℕ) (rest : List ℕ) → tag < 255
        → mark_at 6 tag (tag_octets 8 tag 6 ++ rest) ≡ Ok (tt, rest) }
    ensures closing { (tag : ℕ) (rest : List ℕ) → tag < 255
        → mark_at 7 tag (tag_octets 8 tag 7 ++ rest) ≡ Ok (tt, rest) }
{}

/// What is written for a value after a context tag is an encoding of it. The same holds for
/// opening and closing tags, whose three low bits are `low`.
pub fn context_is_spelled()
    ensures contents { (tag : ℕ) (value : Primitive) → tag < 255 → IsValid value
        → IsTagged 8 tag (contents_of value) (canon_context tag value) }
    ensures value { (value : Primitive) → IsValid value → StandsFor (contents_of value) value }
    ensures mark { (tag low : ℕ) → tag < 255 → IsTag 8 tag low (tag_octets 8 tag low) }
{}

/// No octets are a level, and what is written for a value; two levels one after the other are one,
/// and so is a level between an opening and a closing tag.
pub fn levels_are_made()
    ensures nothing { IsLevel [] }
    ensures value { (value : Primitive) → IsValid value → IsLevel (canon value) }
    ensures context { (tag : ℕ) (value : Primitive) → tag < 255 → IsValid value
        → IsLevel (canon_context tag value) }
    ensures joined { (a b : List ℕ) → IsLevel a → IsLevel b → IsLevel (a ++ b) }
    ensures enclosed { (tag : ℕ) (inside : List ℕ) → tag < 255 → IsLevel inside
        → IsLevel (tag_octets 8 tag 6 ++ (inside ++ tag_octets 8 tag 7)) }
{}

/// How many octets an encoding has at most if its contents have fewer than 254: one for its tag,
/// and one for a length of five and more. The numbers of context tags are below 15.
pub fn encodings_are_short()
    ensures unsigned { (n : ℕ) → length (unsigned_octets n) ≤ 8 }
    ensures signed { (z : ℤ) → length (signed_octets z) ≤ 8 }
    ensures few { (value : Primitive) → length (contents_of value) < 5
        → length (value_octets value) ≤ 1 + length (contents_of value) }
    ensures value { (value : Primitive) → length (contents_of value) < 254
        → length (value_octets value) ≤ 2 + length (contents_of value) }
    ensures few_behind { (tag : ℕ) (value : Primitive) → tag < 15 → length (contents_of value) < 5
        → length (context_octets tag value) ≡ 1 + length (contents_of value) }
    ensures context { (tag : ℕ) (value : Primitive) → tag < 15 → length (contents_of value) < 254
        → length (context_octets tag value) ≤ 2 + length (contents_of value) }
{}
