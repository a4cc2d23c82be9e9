use super::*;
use std::cmp::Ordering;
use std::fmt::{self, Binary, Display, Formatter, LowerHex, Octal, UpperHex};
use std::hash::{DefaultHasher, Hash, Hasher};
use std::process::Abort;
use std::test::Fail;

fn try_26(rt: &impl Abort, n: u32) {
    match u26::new(n) {
        Some(narrow) => assert!(rt; n < 0x400_0000 && narrow.get() == n),
        None => assert!(rt; n >= 0x400_0000),
    }
}

#[test]
fn a_number_in_range_is_given_back_and_no_other_is_one(rt: HostRuntime) {
    for n in 0..=255 {
        match u6::new(n) {
            Some(narrow) => assert!(rt; n < 64 && narrow.get() == n),
            None => assert!(rt; n >= 64),
        }
    }
    for k in 0..=65_535 {
        try_26(&rt, k * 65_537);
    }
    for n in [1, 0x3ff_fffe, 0x3ff_ffff, 0x400_0000, u32::MAX] {
        try_26(&rt, n);
    }
    assert_eq!(rt; (u6::min().get(), u6::max().get()), (0, 63));
    assert_eq!(rt; (u26::min().get(), u26::max().get()), (0, 0x3ff_ffff));
    assert_eq!(rt; u127::max().get(), u128::MAX / 2);
}

#[test]
fn operators_work_on_the_numbers(rt: HostRuntime) -> Result<(), Fail> {
    let a = u6::new(0b10_1010).ok_or("42")?;
    let b = u6::new(0b00_1111).ok_or("15")?;
    assert_eq!(rt;
        ((a & b).get(), (a & 0b1111_0000).get()),
        (0b00_1010, 0b10_0000)
    );
    assert_eq!(rt; ((a | b).get(), a | 0b1100_0000), (0b10_1111, 0b1110_1010));
    assert_eq!(rt; (a + b, a - b, a - 2), (57, 27, 40));
    assert_eq!(rt; u6::max() + u6::max(), 126);
    let mut c = a;
    c |= b;
    c &= 0b11_0111;
    c &= a;
    assert_eq!(rt; c.get(), 0b10_0010);
    Ok(())
}

fn hash_of<T: Hash>(value: &T) -> u64 {
    let mut state = DefaultHasher::new();
    value.hash(&mut state);
    state.finish()
}

#[test]
fn numbers_compare_and_hash_as_their_base(rt: HostRuntime) -> Result<(), Fail> {
    let (five, nine) = (u17::new(5).ok_or("5")?, u17::new(9).ok_or("9")?);
    assert_eq!(rt;
        (five < nine, five == nine, nine.cmp(&five)),
        (true, false, Ordering::Greater)
    );
    assert!(rt; five.clone()? == five);
    assert_eq!(rt; hash_of(&five), hash_of(&5u32));
    assert_eq!(rt;
        (u17::default().get(), NarrowU8::<9>::default().get()),
        (0, 0)
    );
    Ok(())
}

/// What a trait's `fmt` writes.
#[derive(Drop)]
enum Shown<T> {
    UpperHex(T),
    LowerHex(T),
    Octal(T),
    Binary(T),
}

impl<T: UpperHex + LowerHex + Octal + Binary> Display for Shown<T> {
    fn fmt<W: fmt::Write>(&self, f: &mut Formatter<W>) -> fmt::Result {
        match self {
            Shown::UpperHex(n) => UpperHex::fmt(n, f),
            Shown::LowerHex(n) => LowerHex::fmt(n, f),
            Shown::Octal(n) => Octal::fmt(n, f),
            Shown::Binary(n) => Binary::fmt(n, f),
        }
    }
}

#[test]
fn texts_are_those_of_the_base(rt: HostRuntime) -> Result<(), Fail> {
    let alloc = rt.alloc();
    let small = u6::new(43).ok_or("43")?;
    assert_eq!(rt; format!(in alloc; "{small} {small:?}")?.as_str(), "43 43");
    assert_eq!(rt;
        format!(in alloc; "{small:x} {small:X} {small:o} {small:b}")?.as_str(),
        "2b 2B 53 101011"
    );
    assert_eq!(rt;
        format!(in alloc; "{}", Shown::UpperHex(small))?.as_str(),
        "2B"
    );
    let wide = u100::new(0xabc_0000_0000_0000_0000_0001).ok_or("wide")?;
    assert_eq!(rt;
        format!(in alloc; "{}", Shown::UpperHex(wide))?.as_str(),
        "ABC00000000000000000001"
    );
    assert_eq!(rt;
        format!(in alloc; "{}", Shown::LowerHex(wide))?.as_str(),
        "abc00000000000000000001"
    );
    // 8^30 + 8 and 2^66 + 5
    let wide = u100::new(0x400_0000_0000_0000_0000_0008).ok_or("octal")?;
    assert_eq!(rt;
        format!(in alloc; "{}", Shown::Octal(wide))?.as_str(),
        "1000000000000000000000000000010"
    );
    let wide = u100::new(0x4_0000_0000_0000_0005).ok_or("binary")?;
    assert_eq!(rt;
        format!(in alloc; "{}", Shown::Binary(wide))?.as_str(),
        "1000000000000000000000000000000000000000000000000000000000000000101"
    );
    Ok(())
}

#[test]
fn texts_take_the_options_of_the_base(rt: HostRuntime) -> Result<(), Fail> {
    let alloc = rt.alloc();
    let small = u6::new(43).ok_or("43")?;
    assert_eq!(rt;
        format!(in alloc;
            "{small:4}|{small:<4}|{small:^4}|{small:*>4}|{small:04}|{small:+}|{small:#?}"
        )?.as_str(),
        "  43|43  | 43 |**43|0043|+43|43"
    );
    assert_eq!(rt;
        format!(in alloc; "{small:#x} {small:#X} {small:#o} {small:#b}")?.as_str(),
        "0x2b 0x2B 0o53 0b101011"
    );
    // a width of 10, and of 10 with zeros behind what tells the base
    assert_eq!(rt;
        format!(in alloc; "{small:10x}|{small:10X}|{small:10o}|{small:10b}")?.as_str(),
        "        2b|        2B|        53|    101011"
    );
    assert_eq!(rt;
        format!(in alloc; "{small:#010x}|{small:#010X}|{small:#010o}|{small:#010b}")?.as_str(),
        "0x0000002b|0x0000002B|0o00000053|0b00101011"
    );
    // 2^66 + 5, through the traits
    let wide = u100::new(0x4_0000_0000_0000_0005).ok_or("wide")?;
    assert_eq!(rt;
        format!(in alloc; "{wide:24}")?.as_str(),
        "    73786976294838206469"
    );
    assert_eq!(rt;
        format!(in alloc; "{:#022}", Shown::LowerHex(wide))?.as_str(),
        "0x00040000000000000005"
    );
    assert_eq!(rt;
        format!(in alloc; "{:#}", Shown::UpperHex(wide))?.as_str(),
        "0x40000000000000005"
    );
    assert_eq!(rt;
        format!(in alloc; "{:26}", Shown::Octal(wide))?.as_str(),
        "   10000000000000000000005"
    );
    assert_eq!(rt;
        format!(in alloc; "{:#}", Shown::Binary(small))?.as_str(),
        "0b101011"
    );
    Ok(())
}
