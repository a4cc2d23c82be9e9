//! Signed integers of 1 to 127 binary digits.
#![tactic(auto)]
#![allow(non_camel_case_types)]

mod base;
mod digits;
mod narrow;
mod text;

pub use base::Base;
pub use narrow::Narrow;

/// A number of 1 to 7 binary digits, kept in an `i8`.
pub type NarrowI8<const N: u32> = Narrow<i8, N>;

/// A number of 9 to 15 binary digits, kept in an `i16`.
pub type NarrowI16<const N: u32> = Narrow<i16, N>;

/// A number of 17 to 31 binary digits, kept in an `i32`.
pub type NarrowI32<const N: u32> = Narrow<i32, N>;

/// A number of 33 to 63 binary digits, kept in an `i64`.
pub type NarrowI64<const N: u32> = Narrow<i64, N>;

/// A number of 65 to 127 binary digits, kept in an `i128`.
pub type NarrowI128<const N: u32> = Narrow<i128, N>;

/// A number of 1 binary digit.
pub type i1 = NarrowI8<1>;
/// A number of 2 binary digits.
pub type i2 = NarrowI8<2>;
/// A number of 3 binary digits.
pub type i3 = NarrowI8<3>;
/// A number of 4 binary digits.
pub type i4 = NarrowI8<4>;
/// A number of 5 binary digits.
pub type i5 = NarrowI8<5>;
/// A number of 6 binary digits.
pub type i6 = NarrowI8<6>;
/// A number of 7 binary digits.
pub type i7 = NarrowI8<7>;
/// A number of 9 binary digits.
pub type i9 = NarrowI16<9>;
/// A number of 10 binary digits.
pub type i10 = NarrowI16<10>;
/// A number of 11 binary digits.
pub type i11 = NarrowI16<11>;
/// A number of 12 binary digits.
pub type i12 = NarrowI16<12>;
/// A number of 13 binary digits.
pub type i13 = NarrowI16<13>;
/// A number of 14 binary digits.
pub type i14 = NarrowI16<14>;
/// A number of 15 binary digits.
pub type i15 = NarrowI16<15>;
/// A number of 17 binary digits.
pub type i17 = NarrowI32<17>;
/// A number of 18 binary digits.
pub type i18 = NarrowI32<18>;
/// A number of 19 binary digits.
pub type i19 = NarrowI32<19>;
/// A number of 20 binary digits.
pub type i20 = NarrowI32<20>;
/// A number of 21 binary digits.
pub type i21 = NarrowI32<21>;
/// A number of 22 binary digits.
pub type i22 = NarrowI32<22>;
/// A number of 23 binary digits.
pub type i23 = NarrowI32<23>;
/// A number of 24 binary digits.
pub type i24 = NarrowI32<24>;
/// A number of 25 binary digits.
pub type i25 = NarrowI32<25>;
/// A number of 26 binary digits.
pub type i26 = NarrowI32<26>;
/// A number of 27 binary digits.
pub type i27 = NarrowI32<27>;
/// A number of 28 binary digits.
pub type i28 = NarrowI32<28>;
/// A number of 29 binary digits.
pub type i29 = NarrowI32<29>;
/// A number of 30 binary digits.
pub type i30 = NarrowI32<30>;
/// A number of 31 binary digits.
pub type i31 = NarrowI32<31>;
/// A number of 33 binary digits.
pub type i33 = NarrowI64<33>;
/// A number of 34 binary digits.
pub type i34 = NarrowI64<34>;
/// A number of 35 binary digits.
pub type i35 = NarrowI64<35>;
/// A number of 36 binary digits.
pub type i36 = NarrowI64<36>;
/// A number of 37 binary digits.
pub type i37 = NarrowI64<37>;
/// A number of 38 binary digits.
pub type i38 = NarrowI64<38>;
/// A number of 39 binary digits.
pub type i39 = NarrowI64<39>;
/// A number of 40 binary digits.
pub type i40 = NarrowI64<40>;
/// A number of 41 binary digits.
pub type i41 = NarrowI64<41>;
/// A number of 42 binary digits.
pub type i42 = NarrowI64<42>;
/// A number of 43 binary digits.
pub type i43 = NarrowI64<43>;
/// A number of 44 binary digits.
pub type i44 = NarrowI64<44>;
/// A number of 45 binary digits.
pub type i45 = NarrowI64<45>;
/// A number of 46 binary digits.
pub type i46 = NarrowI64<46>;
/// A number of 47 binary digits.
pub type i47 = NarrowI64<47>;
/// A number of 48 binary digits.
pub type i48 = NarrowI64<48>;
/// A number of 49 binary digits.
pub type i49 = NarrowI64<49>;
/// A number of 50 binary digits.
pub type i50 = NarrowI64<50>;
/// A number of 51 binary digits.
pub type i51 = NarrowI64<51>;
/// A number of 52 binary digits.
pub type i52 = NarrowI64<52>;
/// A number of 53 binary digits.
pub type i53 = NarrowI64<53>;
/// A number of 54 binary digits.
pub type i54 = NarrowI64<54>;
/// A number of 55 binary digits.
pub type i55 = NarrowI64<55>;
/// A number of 56 binary digits.
pub type i56 = NarrowI64<56>;
/// A number of 57 binary digits.
pub type i57 = NarrowI64<57>;
/// A number of 58 binary digits.
pub type i58 = NarrowI64<58>;
/// A number of 59 binary digits.
pub type i59 = NarrowI64<59>;
/// A number of 60 binary digits.
pub type i60 = NarrowI64<60>;
/// A number of 61 binary digits.
pub type i61 = NarrowI64<61>;
/// A number of 62 binary digits.
pub type i62 = NarrowI64<62>;
/// A number of 63 binary digits.
pub type i63 = NarrowI64<63>;
/// A number of 65 binary digits.
pub type i65 = NarrowI128<65>;
/// A number of 66 binary digits.
pub type i66 = NarrowI128<66>;
/// A number of 67 binary digits.
pub type i67 = NarrowI128<67>;
/// A number of 68 binary digits.
pub type i68 = NarrowI128<68>;
/// A number of 69 binary digits.
pub type i69 = NarrowI128<69>;
/// A number of 70 binary digits.
pub type i70 = NarrowI128<70>;
/// A number of 71 binary digits.
pub type i71 = NarrowI128<71>;
/// A number of 72 binary digits.
pub type i72 = NarrowI128<72>;
/// A number of 73 binary digits.
pub type i73 = NarrowI128<73>;
/// A number of 74 binary digits.
pub type i74 = NarrowI128<74>;
/// A number of 75 binary digits.
pub type i75 = NarrowI128<75>;
/// A number of 76 binary digits.
pub type i76 = NarrowI128<76>;
/// A number of 77 binary digits.
pub type i77 = NarrowI128<77>;
/// A number of 78 binary digits.
pub type i78 = NarrowI128<78>;
/// A number of 79 binary digits.
pub type i79 = NarrowI128<79>;
/// A number of 80 binary digits.
pub type i80 = NarrowI128<80>;
/// A number of 81 binary digits.
pub type i81 = NarrowI128<81>;
/// A number of 82 binary digits.
pub type i82 = NarrowI128<82>;
/// A number of 83 binary digits.
pub type i83 = NarrowI128<83>;
/// A number of 84 binary digits.
pub type i84 = NarrowI128<84>;
/// A number of 85 binary digits.
pub type i85 = NarrowI128<85>;
/// A number of 86 binary digits.
pub type i86 = NarrowI128<86>;
/// A number of 87 binary digits.
pub type i87 = NarrowI128<87>;
/// A number of 88 binary digits.
pub type i88 = NarrowI128<88>;
/// A number of 89 binary digits.
pub type i89 = NarrowI128<89>;
/// A number of 90 binary digits.
pub type i90 = NarrowI128<90>;
/// A number of 91 binary digits.
pub type i91 = NarrowI128<91>;
/// A number of 92 binary digits.
pub type i92 = NarrowI128<92>;
/// A number of 93 binary digits.
pub type i93 = NarrowI128<93>;
/// A number of 94 binary digits.
pub type i94 = NarrowI128<94>;
/// A number of 95 binary digits.
pub type i95 = NarrowI128<95>;
/// A number of 96 binary digits.
pub type i96 = NarrowI128<96>;
/// A number of 97 binary digits.
pub type i97 = NarrowI128<97>;
/// A number of 98 binary digits.
pub type i98 = NarrowI128<98>;
/// A number of 99 binary digits.
pub type i99 = NarrowI128<99>;
/// A number of 100 binary digits.
pub type i100 = NarrowI128<100>;
/// A number of 101 binary digits.
pub type i101 = NarrowI128<101>;
/// A number of 102 binary digits.
pub type i102 = NarrowI128<102>;
/// A number of 103 binary digits.
pub type i103 = NarrowI128<103>;
/// A number of 104 binary digits.
pub type i104 = NarrowI128<104>;
/// A number of 105 binary digits.
pub type i105 = NarrowI128<105>;
/// A number of 106 binary digits.
pub type i106 = NarrowI128<106>;
/// A number of 107 binary digits.
pub type i107 = NarrowI128<107>;
/// A number of 108 binary digits.
pub type i108 = NarrowI128<108>;
/// A number of 109 binary digits.
pub type i109 = NarrowI128<109>;
/// A number of 110 binary digits.
pub type i110 = NarrowI128<110>;
/// A number of 111 binary digits.
pub type i111 = NarrowI128<111>;
/// A number of 112 binary digits.
pub type i112 = NarrowI128<112>;
/// A number of 113 binary digits.
pub type i113 = NarrowI128<113>;
/// A number of 114 binary digits.
pub type i114 = NarrowI128<114>;
/// A number of 115 binary digits.
pub type i115 = NarrowI128<115>;
/// A number of 116 binary digits.
pub type i116 = NarrowI128<116>;
/// A number of 117 binary digits.
pub type i117 = NarrowI128<117>;
/// A number of 118 binary digits.
pub type i118 = NarrowI128<118>;
/// A number of 119 binary digits.
pub type i119 = NarrowI128<119>;
/// A number of 120 binary digits.
pub type i120 = NarrowI128<120>;
/// A number of 121 binary digits.
pub type i121 = NarrowI128<121>;
/// A number of 122 binary digits.
pub type i122 = NarrowI128<122>;
/// A number of 123 binary digits.
pub type i123 = NarrowI128<123>;
/// A number of 124 binary digits.
pub type i124 = NarrowI128<124>;
/// A number of 125 binary digits.
pub type i125 = NarrowI128<125>;
/// A number of 126 binary digits.
pub type i126 = NarrowI128<126>;
/// A number of 127 binary digits.
pub type i127 = NarrowI128<127>;

#[cfg(test)]
mod tests;
