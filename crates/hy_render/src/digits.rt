//! Numbers in decimal.

ghost use Rattle.std.specs.Prelude.{◌≡◌, ◌+◌, ◌/◌, ◌%◌, ◌<◌, ◌≤◌, ◌++◌, OnOk, vec_len, vec_capacity};
ghost use Rattle.std.specs.Fmt.{decimal, signed_decimal};
ghost use Rattle.hy_value.specs.Print.{BeginsWith};
ghost use Rattle.hy_render.specs.Digits.{two_digits, four_digits};

use crate::put;
use itoa::Buffer;
use std::alloc::AllocError;

/// The two digits of each number below a hundred.
static PAIRS: [u8; 200] = *b"\
0001020304050607080910111213141516171819202122232425262728293031323334353637383940414243444546474849\
5051525354555657585960616263646566676869707172737475767778798081828384858687888990919293949596979899";

/// Appends a number in decimal.
pub fn print_number(number: u64, out: &mut Vec<u8>) -> Result<(), AllocError>
    ensures ok { OnOk result (out.new.items ≡ out.old.items ++ decimal number) }
    ensures begun { BeginsWith out.old.items out.new.items }
{
    if number < 10_000 {
        print_short(number, out)
    } else {
        print_long(number, out)
    }
}

/// Appends a number of at most four digits, as most are.
fn print_short(number: u64, out: &mut Vec<u8>) -> Result<(), AllocError>
    requires { number < 10000 }
    ensures ok { OnOk result (out.new.items ≡ out.old.items ++ decimal number) }
    ensures begun { BeginsWith out.old.items out.new.items }
{
    if out.capacity() - out.len() < 4 {
        return make_room_and_print(number, out);
    }
    push_short(number, out);
    Ok(())
}

/// Makes room, and appends a number of at most four digits. It stands apart, so that where there is room nothing is saved for
/// a call.
#[cold]
#[inline(never)]
fn make_room_and_print(number: u64, out: &mut Vec<u8>) -> Result<(), AllocError>
    requires { number < 10000 }
    ensures ok { OnOk result (out.new.items ≡ out.old.items ++ decimal number) }
    ensures begun { BeginsWith out.old.items out.new.items }
{
    out.reserve(4)?;
    push_short(number, out);
    Ok(())
}

/// Appends a number of at most four digits where there is room for four.
fn push_short(number: u64, out: &mut Vec<u8>)
    requires small { number < 10000 }
    requires room { vec_len out.old + 4 ≤ vec_capacity out.old }
    ensures { out.new.items ≡ out.old.items ++ decimal number }
{
    if number < 10 {
        out.push_reserved(digit(number));
    } else if number < 100 {
        push_pair(number, out);
    } else if number < 1000 {
        out.push_reserved(digit(number / 100));
        push_pair(number % 100, out);
    } else {
        push_pair(number / 100, out);
        push_pair(number % 100, out);
    }
}

/// Appends two digits where there is room for them, a nought in front too.
fn push_pair(number: u64, out: &mut Vec<u8>)
    requires small { number < 100 }
    requires room { vec_len out.old + 2 ≤ vec_capacity out.old }
    ensures items { out.new.items ≡ out.old.items ++ two_digits number }
    ensures len { vec_len out.new ≡ vec_len out.old + 2 }
    ensures capacity { vec_capacity out.new ≡ vec_capacity out.old }
{
    out.push_reserved(tens(number));
    out.push_reserved(ones(number));
}

/// Appends a number of more digits.
#[inline(never)]
fn print_long(number: u64, out: &mut Vec<u8>) -> Result<(), AllocError>
    requires { 10000 ≤ number }
    ensures ok { OnOk result (out.new.items ≡ out.old.items ++ decimal number) }
    ensures begun { BeginsWith out.old.items out.new.items }
{
    if number < 100_000_000 {
        print_short(number / 10_000, out)?;
        print_four(number % 10_000, out)
    } else {
        let mut digits = Buffer::new();
        put(digits.format(number).as_bytes(), out)
    }
}

/// Appends four digits, noughts in front too.
fn print_four(number: u64, out: &mut Vec<u8>) -> Result<(), AllocError>
    requires { number < 10000 }
    ensures ok { OnOk result (out.new.items ≡ out.old.items ++ four_digits number) }
    ensures begun { BeginsWith out.old.items out.new.items }
{
    let front = number / 100;
    let back = number % 100;
    put(&[tens(front), ones(front), tens(back), ones(back)], out)
}

/// The digit of a number below ten.
fn digit(number: u64) -> u8
    requires { number < 10 }
    ensures { result ≡ 48 + number }
{
    b'0' + number as u8
}

/// The first of the two digits of a number below a hundred.
fn tens(number: u64) -> u8
    requires { number < 100 }
    ensures { result ≡ 48 + number / 10 }
{
    PAIRS[number as usize * 2]
}

/// The second of them.
fn ones(number: u64) -> u8
    requires { number < 100 }
    ensures { result ≡ 48 + number % 10 }
{
    PAIRS[number as usize * 2 + 1]
}

/// Appends a number in decimal, with its sign where it is negative.
pub fn print_signed(number: i64, out: &mut Vec<u8>) -> Result<(), AllocError>
    ensures ok { OnOk result (out.new.items ≡ out.old.items ++ signed_decimal number) }
    ensures begun { BeginsWith out.old.items out.new.items }
{
    if number < 0 {
        put(b"-", out)?;
    }
    print_number(number.unsigned_abs(), out)
}

/// Appends a total in decimal, with its sign where it is negative.
pub fn print_wide(total: i128, out: &mut Vec<u8>) -> Result<(), AllocError>
    ensures ok { OnOk result (out.new.items ≡ out.old.items ++ signed_decimal total) }
    ensures begun { BeginsWith out.old.items out.new.items }
{
    let mut digits = Buffer::new();
    put(digits.format(total).as_bytes(), out)
}
