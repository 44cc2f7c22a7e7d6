//! Texts cut at a character's end (ETSI EN 300 468, annex A).

ghost use Rattle.std.specs.Prelude.{◌≡◌, ◌<◌, ◌≤◌, length};
ghost use Rattle.plug_eit.specs.TextCut as cut;

/// More bytes than a text has.
const NO_END: usize = 256;

/// Cuts a text at a character's end where it is longer than the room.
#[tactic(auto, unfolding(crate::specs::TextCut::cut_text))]
pub(crate) fn cut_text(text: &mut Vec<u8>, room: usize)
    ensures { text.new.items ≡ cut.cut_text room text.old.items }
{
    if text.len() <= room {
        return;
    }
    let kept = kept_size(text, room);
    text.truncate(kept);
}

// How many bytes stay of a text that is longer than the room.
fn kept_size(text: &[u8], room: usize) -> usize
    requires { room < length text.now }
    ensures size { result ≡ cut.kept_size text.now room }
    ensures within { result ≤ room }
{
    let mark = mark_size(text[0]);
    if room < mark {
        return 0;
    }
    let end = end_from(text, room, mark);
    if end == mark { 0 } else { end }
}

// The last end of a character that is not beyond the room, from an end on.
fn end_from(text: &[u8], room: usize, first: usize) -> usize
    requires longer { room < length text.now }
    requires within { first ≤ room }
    ensures end { result ≡ cut.end_from room text.now room first }
    ensures within { result ≤ room }
{
    let mut at = first;
    for _ in 0..room {
        let next = at + char_size(text[0], text[at]);
        if room < next {
            return at;
        }
        at = next;
    }
    at
}

// The bytes in front of the first character, by the first byte of a text.
fn mark_size(first: u8) -> usize
    ensures { result ≡ cut.mark_size first }
{
    if 0x20 <= first {
        0
    } else if first == 0x10 {
        3
    } else {
        1
    }
}

// The size of a character, by the first byte of its text and its own.
fn char_size(first: u8, lead: u8) -> usize
    ensures size { result ≡ cut.char_size first lead }
    ensures most { result ≤ 256 }
{
    if 0x20 <= first {
        return latin_size(lead);
    }
    if (1 <= first && first <= 0x0B) || first == 0x10 {
        return 1;
    }
    if first == 0x11 || first == 0x14 {
        return 2;
    }
    if first == 0x12 || first == 0x13 {
        return mixed_size(lead);
    }
    if first == 0x15 {
        utf8_size(lead)
    } else {
        NO_END
    }
}

// The size of a character of table 00: an accent goes with its letter.
fn latin_size(lead: u8) -> usize
    ensures size { result ≡ cut.latin_size lead }
    ensures most { result ≤ 256 }
{
    if 0xC0 <= lead && lead < 0xD0 { 2 } else { 1 }
}

// The size of a character of one byte, or of two.
fn mixed_size(lead: u8) -> usize
    ensures size { result ≡ cut.mixed_size lead }
    ensures most { result ≤ 256 }
{
    if lead < 0x80 { 1 } else { 2 }
}

// The size of a character of UTF-8.
fn utf8_size(lead: u8) -> usize
    ensures size { result ≡ cut.utf8_size lead }
    ensures most { result ≤ 256 }
{
    if lead < 0xC0 {
        1
    } else if lead < 0xE0 {
        2
    } else if lead < 0xF0 {
        3
    } else {
        4
    }
}
