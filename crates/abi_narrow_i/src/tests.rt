use super::*;
use std::cmp::Ordering;
use std::fmt::{self, Binary, Display, Formatter, LowerHex, Octal, UpperHex};
use std::hash::{DefaultHasher, Hash, Hasher};
use std::process::Abort;
use std::test::Fail;

fn try_26(rt: &impl Abort, n: i32) {
    match i26::new(n) {
        Some(narrow) => assert!(rt; -33_554_432 <= n && n <= 33_554_431 && narrow.get() == n),
        None => assert!(rt; n < -33_554_432 || 33_554_431 < n),
    }
}

#[test]
fn a_number_in_range_is_given_back_and_no_other_is_one(rt: HostRuntime) {
    for n in -128..=127 {
        match i6::new(n) {
            Some(narrow) => assert!(rt; -32 <= n && n <= 31 && narrow.get() == n),
            None => assert!(rt; n < -32 || 31 < n),
        }
    }
    for k in 0..=32_767u32 {
        let multiple = (k * 65_537) as i32;
        try_26(&rt, multiple);
        try_26(&rt, -multiple);
    }
    let ends = [
        i32::MIN,
        -33_554_433,
        -33_554_432,
        -33_554_431,
        33_554_430,
        33_554_431,
        33_554_432,
        i32::MAX,
    ];
    for n in ends {
        try_26(&rt, n);
    }
    assert_eq!(rt; (i6::min().get(), i6::max().get()), (-32, 31));
    assert_eq!(rt;
        (i26::min().get(), i26::max().get()),
        (-33_554_432, 33_554_431)
    );
    assert_eq!(rt;
        (i127::min().get(), i127::max().get()),
        (i128::MIN / 2, i128::MAX / 2)
    );
}

#[test]
fn bits_are_those_of_the_low_digits(rt: HostRuntime) -> Result<(), Fail> {
    // 110110, 001111 and 000111 in six digits
    let a = i6::new(-10).ok_or("-10")?;
    let b = i6::new(15).ok_or("15")?;
    assert_eq!(rt; ((a & b).get(), (a | b).get()), (0b000110, -1));
    // 110110 & 100100 is 100100, -28; the digits of 100 are 01100100
    assert_eq!(rt; (a & 100).get(), -28);
    let mut c = a;
    c &= 0b000111;
    c |= b;
    c &= a;
    assert_eq!(rt; c.get(), 0b000110);
    Ok(())
}

fn hash_of<T: Hash>(value: &T) -> u64 {
    let mut state = DefaultHasher::new();
    value.hash(&mut state);
    state.finish()
}

#[test]
fn numbers_compare_and_hash_as_their_base(rt: HostRuntime) -> Result<(), Fail> {
    let (low, high) = (i17::new(-5).ok_or("-5")?, i17::new(9).ok_or("9")?);
    assert_eq!(rt;
        (low < high, low == high, high.cmp(&low)),
        (true, false, Ordering::Greater)
    );
    assert!(rt; low.clone()? == low);
    assert_eq!(rt; hash_of(&low), hash_of(&-5i32));
    assert_eq!(rt;
        (i17::default().get(), NarrowI8::<9>::default().get()),
        (0, 0)
    );
    Ok(())
}

/// What a trait's `fmt` writes.
#[derive(Drop)]
enum Shown<T> {
    UpperHex(T),
    LowerHex(T),
    Octal(T),
    Binary(T),
}

impl<T: UpperHex + LowerHex + Octal + Binary> Display for Shown<T> {
    fn fmt<W: fmt::Write>(&self, f: &mut Formatter<W>) -> fmt::Result {
        match self {
            Shown::UpperHex(n) => UpperHex::fmt(n, f),
            Shown::LowerHex(n) => LowerHex::fmt(n, f),
            Shown::Octal(n) => Octal::fmt(n, f),
            Shown::Binary(n) => Binary::fmt(n, f),
        }
    }
}

#[test]
fn texts_are_those_of_the_base(rt: HostRuntime) -> Result<(), Fail> {
    let alloc = rt.alloc();
    let small = i6::new(-2).ok_or("-2")?;
    assert_eq!(rt; format!(in alloc; "{small} {small:?}")?.as_str(), "-2 -2");
    assert_eq!(rt;
        format!(in alloc; "{small:x} {small:X} {small:o} {small:b}")?.as_str(),
        "fe FE 376 11111110"
    );
    assert_eq!(rt;
        format!(in alloc; "{}", Shown::UpperHex(small))?.as_str(),
        "FE"
    );
    // -2 in 128 bits
    let wide = i100::new(-2).ok_or("wide")?;
    let upper = format!(in alloc; "{}", Shown::UpperHex(wide))?;
    assert_eq!(rt; upper.as_str(), "FFFFFFFFFFFFFFFFFFFFFFFFFFFFFFFE");
    let lower = format!(in alloc; "{}", Shown::LowerHex(wide))?;
    assert_eq!(rt; lower.as_str(), "fffffffffffffffffffffffffffffffe");
    let octal = format!(in alloc; "{}", Shown::Octal(wide))?;
    assert_eq!(rt;
        octal.as_str(),
        "3777777777777777777777777777777777777777776"
    );
    // 2^66 + 5
    let wide = i100::new(0x4_0000_0000_0000_0005).ok_or("binary")?;
    let binary = format!(in alloc; "{}", Shown::Binary(wide))?;
    assert_eq!(rt;
        binary.as_str(),
        "1000000000000000000000000000000000000000000000000000000000000000101"
    );
    Ok(())
}

#[test]
fn texts_take_the_options_of_the_base(rt: HostRuntime) -> Result<(), Fail> {
    let alloc = rt.alloc();
    let (low, high) = (i6::new(-2).ok_or("-2")?, i6::new(9).ok_or("9")?);
    assert_eq!(rt;
        format!(in alloc;
            "{low:4}|{low:<4}|{low:^4}|{low:*>4}|{low:04}|{low:+}|{high:+}|{low:#?}"
        )?.as_str(),
        "  -2|-2  | -2 |**-2|-002|-2|+9|-2"
    );
    // -2 in 8 bits
    assert_eq!(rt;
        format!(in alloc; "{low:#x} {low:#X} {low:#o} {low:#b}")?.as_str(),
        "0xfe 0xFE 0o376 0b11111110"
    );
    // a width of 10, and of 12 with zeros behind what tells the base
    assert_eq!(rt;
        format!(in alloc; "{low:10x}|{low:10X}|{low:10o}|{low:10b}")?.as_str(),
        "        fe|        FE|       376|  11111110"
    );
    assert_eq!(rt;
        format!(in alloc; "{low:#012x}|{low:#012X}|{low:#012o}|{low:#012b}")?.as_str(),
        "0x00000000fe|0x00000000FE|0o0000000376|0b0011111110"
    );
    // -2 in 128 bits
    let wide = i100::new(-2).ok_or("wide")?;
    assert_eq!(rt; format!(in alloc; "{wide:5}")?.as_str(), "   -2");
    assert_eq!(rt;
        format!(in alloc; "{:#036}", Shown::LowerHex(wide))?.as_str(),
        "0x00fffffffffffffffffffffffffffffffe"
    );
    assert_eq!(rt;
        format!(in alloc; "{:#}", Shown::UpperHex(wide))?.as_str(),
        "0xFFFFFFFFFFFFFFFFFFFFFFFFFFFFFFFE"
    );
    assert_eq!(rt;
        format!(in alloc; "{:#}", Shown::Octal(low))?.as_str(),
        "0o376"
    );
    assert_eq!(rt;
        format!(in alloc; "{:#}", Shown::Binary(low))?.as_str(),
        "0b11111110"
    );
    Ok(())
}
