//! Unsigned integers of 1 to 127 binary digits.
#![tactic(auto)]
#![allow(non_camel_case_types)]

mod base;
mod narrow;
mod text;

pub use base::Base;
pub use narrow::Narrow;

/// A number of 1 to 7 binary digits, kept in a `u8`.
pub type NarrowU8<const N: u32> = Narrow<u8, N>;

/// A number of 9 to 15 binary digits, kept in a `u16`.
pub type NarrowU16<const N: u32> = Narrow<u16, N>;

/// A number of 17 to 31 binary digits, kept in a `u32`.
pub type NarrowU32<const N: u32> = Narrow<u32, N>;

/// A number of 33 to 63 binary digits, kept in a `u64`.
pub type NarrowU64<const N: u32> = Narrow<u64, N>;

/// A number of 65 to 127 binary digits, kept in a `u128`.
pub type NarrowU128<const N: u32> = Narrow<u128, N>;

/// A number of 1 binary digit.
pub type u1 = NarrowU8<1>;
/// A number of 2 binary digits.
pub type u2 = NarrowU8<2>;
/// A number of 3 binary digits.
pub type u3 = NarrowU8<3>;
/// A number of 4 binary digits.
pub type u4 = NarrowU8<4>;
/// A number of 5 binary digits.
pub type u5 = NarrowU8<5>;
/// A number of 6 binary digits.
pub type u6 = NarrowU8<6>;
/// A number of 7 binary digits.
pub type u7 = NarrowU8<7>;
/// A number of 9 binary digits.
pub type u9 = NarrowU16<9>;
/// A number of 10 binary digits.
pub type u10 = NarrowU16<10>;
/// A number of 11 binary digits.
pub type u11 = NarrowU16<11>;
/// A number of 12 binary digits.
pub type u12 = NarrowU16<12>;
/// A number of 13 binary digits.
pub type u13 = NarrowU16<13>;
/// A number of 14 binary digits.
pub type u14 = NarrowU16<14>;
/// A number of 15 binary digits.
pub type u15 = NarrowU16<15>;
/// A number of 17 binary digits.
pub type u17 = NarrowU32<17>;
/// A number of 18 binary digits.
pub type u18 = NarrowU32<18>;
/// A number of 19 binary digits.
pub type u19 = NarrowU32<19>;
/// A number of 20 binary digits.
pub type u20 = NarrowU32<20>;
/// A number of 21 binary digits.
pub type u21 = NarrowU32<21>;
/// A number of 22 binary digits.
pub type u22 = NarrowU32<22>;
/// A number of 23 binary digits.
pub type u23 = NarrowU32<23>;
/// A number of 24 binary digits.
pub type u24 = NarrowU32<24>;
/// A number of 25 binary digits.
pub type u25 = NarrowU32<25>;
/// A number of 26 binary digits.
pub type u26 = NarrowU32<26>;
/// A number of 27 binary digits.
pub type u27 = NarrowU32<27>;
/// A number of 28 binary digits.
pub type u28 = NarrowU32<28>;
/// A number of 29 binary digits.
pub type u29 = NarrowU32<29>;
/// A number of 30 binary digits.
pub type u30 = NarrowU32<30>;
/// A number of 31 binary digits.
pub type u31 = NarrowU32<31>;
/// A number of 33 binary digits.
pub type u33 = NarrowU64<33>;
/// A number of 34 binary digits.
pub type u34 = NarrowU64<34>;
/// A number of 35 binary digits.
pub type u35 = NarrowU64<35>;
/// A number of 36 binary digits.
pub type u36 = NarrowU64<36>;
/// A number of 37 binary digits.
pub type u37 = NarrowU64<37>;
/// A number of 38 binary digits.
pub type u38 = NarrowU64<38>;
/// A number of 39 binary digits.
pub type u39 = NarrowU64<39>;
/// A number of 40 binary digits.
pub type u40 = NarrowU64<40>;
/// A number of 41 binary digits.
pub type u41 = NarrowU64<41>;
/// A number of 42 binary digits.
pub type u42 = NarrowU64<42>;
/// A number of 43 binary digits.
pub type u43 = NarrowU64<43>;
/// A number of 44 binary digits.
pub type u44 = NarrowU64<44>;
/// A number of 45 binary digits.
pub type u45 = NarrowU64<45>;
/// A number of 46 binary digits.
pub type u46 = NarrowU64<46>;
/// A number of 47 binary digits.
pub type u47 = NarrowU64<47>;
/// A number of 48 binary digits.
pub type u48 = NarrowU64<48>;
/// A number of 49 binary digits.
pub type u49 = NarrowU64<49>;
/// A number of 50 binary digits.
pub type u50 = NarrowU64<50>;
/// A number of 51 binary digits.
pub type u51 = NarrowU64<51>;
/// A number of 52 binary digits.
pub type u52 = NarrowU64<52>;
/// A number of 53 binary digits.
pub type u53 = NarrowU64<53>;
/// A number of 54 binary digits.
pub type u54 = NarrowU64<54>;
/// A number of 55 binary digits.
pub type u55 = NarrowU64<55>;
/// A number of 56 binary digits.
pub type u56 = NarrowU64<56>;
/// A number of 57 binary digits.
pub type u57 = NarrowU64<57>;
/// A number of 58 binary digits.
pub type u58 = NarrowU64<58>;
/// A number of 59 binary digits.
pub type u59 = NarrowU64<59>;
/// A number of 60 binary digits.
pub type u60 = NarrowU64<60>;
/// A number of 61 binary digits.
pub type u61 = NarrowU64<61>;
/// A number of 62 binary digits.
pub type u62 = NarrowU64<62>;
/// A number of 63 binary digits.
pub type u63 = NarrowU64<63>;
/// A number of 65 binary digits.
pub type u65 = NarrowU128<65>;
/// A number of 66 binary digits.
pub type u66 = NarrowU128<66>;
/// A number of 67 binary digits.
pub type u67 = NarrowU128<67>;
/// A number of 68 binary digits.
pub type u68 = NarrowU128<68>;
/// A number of 69 binary digits.
pub type u69 = NarrowU128<69>;
/// A number of 70 binary digits.
pub type u70 = NarrowU128<70>;
/// A number of 71 binary digits.
pub type u71 = NarrowU128<71>;
/// A number of 72 binary digits.
pub type u72 = NarrowU128<72>;
/// A number of 73 binary digits.
pub type u73 = NarrowU128<73>;
/// A number of 74 binary digits.
pub type u74 = NarrowU128<74>;
/// A number of 75 binary digits.
pub type u75 = NarrowU128<75>;
/// A number of 76 binary digits.
pub type u76 = NarrowU128<76>;
/// A number of 77 binary digits.
pub type u77 = NarrowU128<77>;
/// A number of 78 binary digits.
pub type u78 = NarrowU128<78>;
/// A number of 79 binary digits.
pub type u79 = NarrowU128<79>;
/// A number of 80 binary digits.
pub type u80 = NarrowU128<80>;
/// A number of 81 binary digits.
pub type u81 = NarrowU128<81>;
/// A number of 82 binary digits.
pub type u82 = NarrowU128<82>;
/// A number of 83 binary digits.
pub type u83 = NarrowU128<83>;
/// A number of 84 binary digits.
pub type u84 = NarrowU128<84>;
/// A number of 85 binary digits.
pub type u85 = NarrowU128<85>;
/// A number of 86 binary digits.
pub type u86 = NarrowU128<86>;
/// A number of 87 binary digits.
pub type u87 = NarrowU128<87>;
/// A number of 88 binary digits.
pub type u88 = NarrowU128<88>;
/// A number of 89 binary digits.
pub type u89 = NarrowU128<89>;
/// A number of 90 binary digits.
pub type u90 = NarrowU128<90>;
/// A number of 91 binary digits.
pub type u91 = NarrowU128<91>;
/// A number of 92 binary digits.
pub type u92 = NarrowU128<92>;
/// A number of 93 binary digits.
pub type u93 = NarrowU128<93>;
/// A number of 94 binary digits.
pub type u94 = NarrowU128<94>;
/// A number of 95 binary digits.
pub type u95 = NarrowU128<95>;
/// A number of 96 binary digits.
pub type u96 = NarrowU128<96>;
/// A number of 97 binary digits.
pub type u97 = NarrowU128<97>;
/// A number of 98 binary digits.
pub type u98 = NarrowU128<98>;
/// A number of 99 binary digits.
pub type u99 = NarrowU128<99>;
/// A number of 100 binary digits.
pub type u100 = NarrowU128<100>;
/// A number of 101 binary digits.
pub type u101 = NarrowU128<101>;
/// A number of 102 binary digits.
pub type u102 = NarrowU128<102>;
/// A number of 103 binary digits.
pub type u103 = NarrowU128<103>;
/// A number of 104 binary digits.
pub type u104 = NarrowU128<104>;
/// A number of 105 binary digits.
pub type u105 = NarrowU128<105>;
/// A number of 106 binary digits.
pub type u106 = NarrowU128<106>;
/// A number of 107 binary digits.
pub type u107 = NarrowU128<107>;
/// A number of 108 binary digits.
pub type u108 = NarrowU128<108>;
/// A number of 109 binary digits.
pub type u109 = NarrowU128<109>;
/// A number of 110 binary digits.
pub type u110 = NarrowU128<110>;
/// A number of 111 binary digits.
pub type u111 = NarrowU128<111>;
/// A number of 112 binary digits.
pub type u112 = NarrowU128<112>;
/// A number of 113 binary digits.
pub type u113 = NarrowU128<113>;
/// A number of 114 binary digits.
pub type u114 = NarrowU128<114>;
/// A number of 115 binary digits.
pub type u115 = NarrowU128<115>;
/// A number of 116 binary digits.
pub type u116 = NarrowU128<116>;
/// A number of 117 binary digits.
pub type u117 = NarrowU128<117>;
/// A number of 118 binary digits.
pub type u118 = NarrowU128<118>;
/// A number of 119 binary digits.
pub type u119 = NarrowU128<119>;
/// A number of 120 binary digits.
pub type u120 = NarrowU128<120>;
/// A number of 121 binary digits.
pub type u121 = NarrowU128<121>;
/// A number of 122 binary digits.
pub type u122 = NarrowU128<122>;
/// A number of 123 binary digits.
pub type u123 = NarrowU128<123>;
/// A number of 124 binary digits.
pub type u124 = NarrowU128<124>;
/// A number of 125 binary digits.
pub type u125 = NarrowU128<125>;
/// A number of 126 binary digits.
pub type u126 = NarrowU128<126>;
/// A number of 127 binary digits.
pub type u127 = NarrowU128<127>;

#[cfg(test)]
mod tests;
