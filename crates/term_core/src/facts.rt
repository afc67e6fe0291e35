// What a rule says of its symbols.

ghost use Rattle.std.specs.Prelude.{◌≡◌};
ghost use Rattle.term_core.specs.Facts.{fact_at, has_size, is_count, same_as};

use gg_base::Size;

/// What is known of one symbol: the size of its value, whether it is a constant from 0 to 31, and the least symbol that is spelled
/// like it, which is itself where there is no other. In a list of facts the fact of symbol i stands at index i, the first one being
/// that of `%0`; of a symbol behind the list nothing is known.
#[derive(Clone, Copy, Debug, PartialEq, Eq)]
pub struct Fact {
    pub size: Size,
    pub is_count: bool,
    pub same_as: u8,
}

fn fact_at(facts: &[Fact], i: u8) -> Fact
    ensures { result ≡ fact_at facts.now i }
{
    let index = i as usize;
    if index < facts.len() {
        facts[index]
    } else {
        Fact {
            size: Size::Long,
            is_count: false,
            same_as: i,
        }
    }
}

/// Whether symbol i is known to have values of this size.
pub fn has_size(facts: &[Fact], i: u8, size: Size) -> bool
    ensures { result ≡ has_size facts.now i size }
{
    fact_at(facts, i).size.bytes() == size.bytes()
}

/// Whether symbol i is known to be a constant from 0 to 31.
pub fn is_count(facts: &[Fact], i: u8) -> bool
    ensures { result ≡ is_count facts.now i }
{
    fact_at(facts, i).is_count
}

/// The least symbol that is known to be spelled like symbol i.
pub fn same_as(facts: &[Fact], i: u8) -> u8
    ensures { result ≡ same_as facts.now i }
{
    fact_at(facts, i).same_as
}
