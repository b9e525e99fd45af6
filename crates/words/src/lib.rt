// The words of 8B9B: the word that carries a byte, and what nine bits stand for.
//
// word, look_up and carried read the lists of this crate; word_in and entry_in read one that the caller lends.
#![tactic(auto)]

ghost use Rattle.std.specs.Prelude.{◌≡◌, get_or};
ghost use Rattle.words.specs.Words.{word_of};
ghost use Rattle.words.specs.Symbols.{symbol_at, symbol_of};
ghost use Rattle.words.specs.Lists.{place_by, entry_by, carried, is_escape};

mod reverse_list;
pub mod short_list;
pub mod word_list;

// What a word stands for. [2.5]
#[derive(Clone, Copy, PartialEq, Eq, Debug)]
pub enum Symbol {
    Byte(u8),
    Escape,
}

// The word of byte x.
pub fn word(x: u8) -> u16
    ensures { result ≡ word_of x }
{
    word_in(&word_list::list(), x)
}

// What stands for byte x in a word list that the caller lends.
pub fn word_in(list: &[u16; 256], x: u8) -> u16
    ensures { result ≡ get_or list.now x 0 }
{
    list[x as usize]
}

// What nine bits, given as a number, stand for, if they are a word; a number above 511 is none.
pub fn look_up(nine: u16) -> Option<Symbol>
    ensures { result ≡ symbol_of nine }
{
    symbol_in(reverse_list::in_place(), nine)
}

// What nine bits stand for by a reverse list that the caller lends.
fn symbol_in(list: &[u16; 512], nine: u16) -> Option<Symbol>
    ensures { result ≡ symbol_at (place_by list.now nine) }
{
    symbol_at(place_in(list, nine))
}

// The place that a reverse list has for nine bits; a number above 511 is no word. `entry_in` asks another list, of other numbers: for one
// function over both a type and what stands for none would have to be handed to a single line.
fn place_in(list: &[u16; 512], nine: u16) -> u16
    ensures { result ≡ place_by list.now nine }
{
    if nine < 512 { list[nine as usize] } else { 258 }
}

// What stands at a place of the list of all words. Not by From: the place is a number, of which From would say it wherever it is met.
fn symbol_at(place: u16) -> Option<Symbol>
    ensures { result ≡ symbol_at place }
{
    match place {
        0 | 257 => Some(Symbol::Escape),
        1..=256 => Some(Symbol::Byte((place - 1) as u8)),
        _ => None,
    }
}

// The seven lowest bits of the byte that nine bits carry, by a short list that the caller lends; 128 or more where they carry none.
pub fn entry_in(list: &[u8; 512], nine: u16) -> u8
    ensures { result ≡ entry_by list.now nine }
{
    if nine < 512 { list[nine as usize] } else { 128 }
}

// The byte that nine bits carry, if they carry one.
pub fn carried(nine: u16) -> Option<u8>
    ensures { result ≡ carried (symbol_of nine) }
{
    let entry = entry_in(&short_list::list(), nine);
    if 127 < entry {
        return None;
    }
    Some((nine / 256 * 128) as u8 + entry)
}

// Whether nine bits are an escape, J or K.
pub fn is_escape(nine: u16) -> bool
    ensures { result ≡ is_escape (symbol_of nine) }
{
    nine == 0b001000010 || nine == 0b110111101
}
