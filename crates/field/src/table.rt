// The tables of width 7: the powers of α, and the logarithms to the base α. These functions are no entry points.
ghost use Rattle.std.specs.Prelude.{◌≡◌, ◌∷◌, [], ◌+◌, ◌*◌, ◌<◌};
ghost use Rattle.field.specs.Field.{power as power_m, α};
ghost use Rattle.field.specs.inner.Bytes.{unit_for};

use crate::Exponent;

// α to the exponents 0 to 253: two logarithms can be added without a reduction modulo 127.
static POWERS: [u8; 254] = [
    1, // exponent 0
    2, 4, 8, 16, 32, 64, 9, 18, 36, 72, 25, 50, 100, 65, 11, 22, // exponent 16
    44, 88, 57, 114, 109, 83, 47, 94, 53, 106, 93, 51, 102, 69, 3, 6, // exponent 32
    12, 24, 48, 96, 73, 27, 54, 108, 81, 43, 86, 37, 74, 29, 58, 116, // exponent 48
    97, 75, 31, 62, 124, 113, 107, 95, 55, 110, 85, 35, 70, 5, 10, 20, // exponent 64
    40, 80, 41, 82, 45, 90, 61, 122, 125, 115, 111, 87, 39, 78, 21, 42, // exponent 80
    84, 33, 66, 13, 26, 52, 104, 89, 59, 118, 101, 67, 15, 30, 60, 120, // exponent 96
    121, 123, 127, 119, 103, 71, 7, 14, 28, 56, 112, 105, 91, 63, 126, 117, // exponent 112
    99, 79, 23, 46, 92, 49, 98, 77, 19, 38, 76, 17, 34, 68, 1, 2, // exponent 128
    4, 8, 16, 32, 64, 9, 18, 36, 72, 25, 50, 100, 65, 11, 22, 44, // exponent 144
    88, 57, 114, 109, 83, 47, 94, 53, 106, 93, 51, 102, 69, 3, 6, 12, // exponent 160
    24, 48, 96, 73, 27, 54, 108, 81, 43, 86, 37, 74, 29, 58, 116, 97, // exponent 176
    75, 31, 62, 124, 113, 107, 95, 55, 110, 85, 35, 70, 5, 10, 20, 40, // exponent 192
    80, 41, 82, 45, 90, 61, 122, 125, 115, 111, 87, 39, 78, 21, 42, 84, // exponent 208
    33, 66, 13, 26, 52, 104, 89, 59, 118, 101, 67, 15, 30, 60, 120, 121, // exponent 224
    123, 127, 119, 103, 71, 7, 14, 28, 56, 112, 105, 91, 63, 126, 117, 99, // exponent 240
    79, 23, 46, 92, 49, 98, 77, 19, 38, 76, 17, 34, 68, // exponent 253
];

// α to the power e at width 7.
pub fn power_of_alpha(e: Exponent) -> u8
    requires { e.0 < 254 }
    ensures { result ≡ power_m 7 α e.0 }
{
    POWERS[e.0 as usize]
}

// The powers of α at e, and at 1 to 4 times i more, at width 7. No entry point: it requires that both are below 127.
pub fn powers_from(e: Exponent, i: Exponent) -> [u8; 5]
    requires { (e.0 < 127) × (i.0 < 127) }
    ensures { result
        ≡ power_m 7 α (0 * i.0 + e.0)
        ∷ power_m 7 α (1 * i.0 + e.0)
        ∷ power_m 7 α (2 * i.0 + e.0)
        ∷ power_m 7 α (3 * i.0 + e.0)
        ∷ power_m 7 α (4 * i.0 + e.0)
        ∷ [] }
{
    let a = e.0 as usize;
    let s = i.0 as usize;
    [
        POWERS[a],
        POWERS[(s + a) % 127],
        POWERS[(2 * s + a) % 127],
        POWERS[(3 * s + a) % 127],
        POWERS[(4 * s + a) % 127],
    ]
}

// The logarithm of each symbol to the base α: the exponent at which the power of α is the symbol. The symbol 0 has none; its entry is that of 1.
static LOGARITHMS: [u8; 128] = [
    0, 0, 1, 31, 2, 62, 32, 103, 3, 7, 63, 15, 33, 84, 104, 93, // symbol 15
    4, 124, 8, 121, 64, 79, 16, 115, 34, 11, 85, 38, 105, 46, 94, 51, // symbol 31
    5, 82, 125, 60, 9, 44, 122, 77, 65, 67, 80, 42, 17, 69, 116, 23, // symbol 47
    35, 118, 12, 28, 86, 25, 39, 57, 106, 19, 47, 89, 95, 71, 52, 110, // symbol 63
    6, 14, 83, 92, 126, 30, 61, 102, 10, 37, 45, 50, 123, 120, 78, 114, // symbol 79
    66, 41, 68, 22, 81, 59, 43, 76, 18, 88, 70, 109, 117, 27, 24, 56, // symbol 95
    36, 49, 119, 113, 13, 91, 29, 101, 87, 108, 26, 55, 40, 21, 58, 75, // symbol 111
    107, 54, 20, 74, 48, 112, 90, 100, 96, 97, 72, 98, 53, 73, 111, 99, // symbol 127
];

// The exponent of α at which its power at width 7 is the unit of a.
pub(crate) fn logarithm(a: u8) -> Exponent
    ensures { (result.0 < 127) × (power_m 7 α result.0 ≡ unit_for a) }
{
    Exponent(LOGARITHMS[(a % 128) as usize] as u16)
}
