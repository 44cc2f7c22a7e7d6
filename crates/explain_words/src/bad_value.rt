//! What is said of the form of a value, and of one that does not fit.
use crate::fits::{fits, wide};
use crate::marked::put_word;
use crate::piece::wrong_piece;
use crate::shown_option::ShownOption;
use plugin_options::{Part, Sign, Takes, split_at_sign};
use std::alloc::{AllocError, Global};

/// How such a value is written.
pub(crate) fn form_text(takes: Takes) -> &'static str {
    match takes {
        Takes::Number(_, _) => "a number is decimal, or hexadecimal after 0x\n",
        Takes::Signed(_, _) =>
            "a number is decimal, or hexadecimal after 0x; one below 0 is written with = and -, as =-3600\n",
        Takes::Ranges(_) | Takes::RangesFrom(_, _) =>
            "numbers and ranges are joined by commas, as 0,16-18,0x100\n",
        Takes::Pair(Sign::Slash, _, _) => "two numbers have / between them, as 1/2\n",
        Takes::Pair(Sign::Equals, _, _) => "two numbers have = between them, as 1=2\n",
        Takes::Pairs(Sign::Slash, _, _) =>
            "two numbers have / between them, and pairs are joined by commas, as 1/2,3/4\n",
        Takes::Pairs(Sign::Equals, _, _) =>
            "two numbers have = between them, and pairs are joined by commas, as 1=2,3=4\n",
        Takes::Bytes(_, _) => "each byte is two hexadecimal digits\n",
        Takes::Part(part) => part_text(part),
        Takes::Numbered(_, _, Part::Code) =>
            "a number and a code of three characters have / between them, as 257/deu,258/eng\n",
        Takes::Numbered(_, _, Part::Descriptors) =>
            "a number and whole descriptors in hexadecimal digits have / between them, as 257/520107,258/520108\n",
        Takes::Words(_) => "words are joined by commas, without blanks\n",
        Takes::Service =>
            "a service is its number, from 1 to 65535, or, where the word is no number, its name as info shows it\n",
        Takes::Choice(_) | Takes::Text => "",
    }
}

// How a part is written that stands alone.
fn part_text(part: Part) -> &'static str {
    match part {
        Part::Code => "a code is three characters, as deu\n",
        Part::Descriptors =>
            "each byte is two hexadecimal digits; a descriptor is its tag, its length and as many bytes, as 520107\n",
    }
}

/// How all values of an option are given in one list, where it takes one.
pub(crate) fn list_text(takes: Takes) -> &'static str {
    match takes {
        Takes::Ranges(_) | Takes::RangesFrom(_, _) =>
            "all of its numbers are given in one list, as 0,16-18,0x100\n",
        Takes::Pairs(Sign::Slash, _, _) => "all of its pairs are given in one list, as 1/2,3/4\n",
        Takes::Pairs(Sign::Equals, _, _) => "all of its pairs are given in one list, as 1=2,3=4\n",
        Takes::Numbered(_, _, Part::Code) =>
            "all of its codes are given in one list, as 257/deu,258/eng\n",
        Takes::Numbered(_, _, Part::Descriptors) =>
            "all of its descriptors are given in one list, as 257/520107,258/520108\n",
        Takes::Words(_) => "all of its words are given in one list, as nit,eit\n",
        _ => "",
    }
}

// Whether the sign is in the word.
fn has_sign(word: &str, sign: char) -> bool {
    word.contains(sign)
}

// What is said where another sign is between two numbers.
fn sign_text(takes: Takes, value: &str) -> &'static str {
    let (Takes::Pair(sign, _, _) | Takes::Pairs(sign, _, _) | Takes::Numbered(sign, _, _)) = takes
    else {
        return "";
    };
    match sign {
        Sign::Slash if has_sign(value, '=') => "= is written here where / is needed\n",
        Sign::Slash if has_sign(value, ':') => ": is written here where / is needed\n",
        Sign::Equals if has_sign(value, '/') => "/ is written here where = is needed\n",
        Sign::Equals if has_sign(value, ':') => ": is written here where = is needed\n",
        _ => "",
    }
}

// Whether a blank may stand in the value, as in a code.
fn takes_blanks(takes: Takes) -> bool {
    match takes {
        Takes::Numbered(_, _, Part::Code) => true,
        _ => false,
    }
}

// Puts the first of these that is so: a blank in the value, a comma between operands, a piece of it that is no number.
fn put_slip(text: &mut String, row: &ShownOption, value: &str) -> Result<(), AllocError> {
    if has_sign(value, ' ') && !takes_blanks(row.takes) {
        return text.push_str("no blank is allowed in the value\n");
    }
    if row.many && has_sign(value, ',') {
        return match row.takes {
            Takes::Pair(Sign::Slash, _, _) => {
                text.push_str("each pair is a word of its own, as 1/2 3/4\n")
            }
            Takes::Pair(Sign::Equals, _, _) => {
                text.push_str("each pair is a word of its own, as 1=2 3=4\n")
            }
            _ => Ok(()),
        };
    }
    if let Some(piece) = wrong_piece(row.takes, value) {
        text.push_str("this is not read as a number:")?;
        put_word(text, piece)?;
        return text.push('\n');
    }
    match row.takes {
        Takes::Ranges(_) | Takes::RangesFrom(_, _) => text.push_str(
            "a range goes from its lesser number to its greater\n",
        ),
        _ => Ok(()),
    }
}

// Puts the range of what is taken.
fn put_range(text: &mut String, takes: Takes) -> Result<(), AllocError> {
    match takes {
        Takes::Number(least, most) => write!(text, "the range is {least} to {most}\n"),
        Takes::Signed(least, most) => write!(text, "the range is {least} to {most}\n"),
        Takes::RangesFrom(least, most) => {
            write!(text, "the range of each number is {least} to {most}\n")
        }
        Takes::Pair(_, first, second) | Takes::Pairs(_, first, second) => {
            let (least, most) = first;
            let (low, high) = second;
            write!(
                text,
                "the range of the first number is {least} to {most}, of the second {low} to {high}\n"
            )
        }
        Takes::Bytes(least, most) => write!(text, "the range is {least} to {most} bytes\n"),
        Takes::Numbered(_, range, _) => {
            let (least, most) = range;
            write!(text, "the range of the number is {least} to {most}\n")
        }
        Takes::Ranges(_)
        | Takes::Part(_)
        | Takes::Choice(_)
        | Takes::Words(_)
        | Takes::Service
        | Takes::Text => Ok(()),
    }
}

/// Puts what is said of a wrong value: its range where that alone is wrong, and else its form and what is wrong with it.
pub(crate) fn put_value(
    alloc: Global,
    text: &mut String,
    row: &ShownOption,
    value: &str,
) -> Result<(), AllocError> {
    if fits(alloc, wide(row.takes), value)? {
        return put_range(text, row.takes);
    }
    text.push_str(form_text(row.takes))?;
    text.push_str(sign_text(row.takes, value))?;
    put_slip(text, row, value)
}
