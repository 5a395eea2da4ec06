// IEEE 754's squareRoot of an f64, worked out from its bits in four steps: special operands, exponent halved, root digits, rounding.
// Each step is a function with a promise of its own, and stands below in that order; `root_bits` puts them together. docs/ROOT.md has the clauses beside them.
#![tactic(auto)]

ghost use Rattle.std.specs.Prelude.{◌≡◌, ◌*◌, ◌^◌, ◌≤◌, ◌<◌};
ghost use Rattle.std.specs.Float.{binary64};
ghost use Rattle.std.specs.Float.Ieee.{to_bits, of_bits};
ghost use Rattle.root.specs.Root.{root as ieee_root, root_bits};
ghost use Rattle.root.specs.Steps.{FinitePositive, Special, Unpacks, Halved, Digits, rounded_root};

// The weight of the exponent's field in a pattern, and of the leading digit in a significand: 2 ^ 52.
const LEAD: u64 = 0x0010_0000_0000_0000;

// The digits of a significand below its leading digit.
const BELOW_LEAD: u64 = 52;

// The bits of a u64 above a significand's leading digit.
const ABOVE_LEAD: u64 = 11;

// The smallest f64 above zero is 2 ^ -1074.
const LOWEST: u64 = 1074;

// The weight of the sign.
const SIGN: u64 = 0x8000_0000_0000_0000;

// The patterns of +infinity and of the NaN that is answered.
const INFINITY: u64 = 0x7FF0_0000_0000_0000;

const NAN: u64 = 0x7FF8_0000_0000_0000;

// ---- 1. special operands

// The pattern that a special operand is answered with, each class as the table `at_once` says (5.4.1, 6.1, 6.2, 6.3, 7.2). What has none is a finite number above zero.
// The arms are the exponent's field: zeros and subnormal numbers, normal numbers, infinities and NaNs.
pub fn special(b: u64) -> Option<u64>
    ensures { Special b result }
{
    let field = b % SIGN / LEAD;
    match field {
        0 => {
            if b % LEAD == 0 {
                Some(b)
            } else if b < SIGN {
                None
            } else {
                Some(NAN)
            }
        }
        1..=2046 => { if b < SIGN { None } else { Some(NAN) } }
        2047.. => { if b == INFINITY { Some(b) } else { Some(NAN) } }
    }
}

// ---- 2. exponent halved

// The number is digits * 2 ^ exponent / 4 ^ 1074, and digits has 53 digits.
#[derive(Clone, Copy)]
struct Unpacked {
    digits: u64,
    exponent: u64,
}

// The significand of a finite number above zero, with its leading digit in place, and the exponent that goes with it. A subnormal number's is moved up to there.
fn unpack(b: u64) -> Unpacked
    requires { FinitePositive b }
    ensures { Unpacks b result.digits result.exponent }
{
    let field = b / LEAD;
    match field {
        0 => {
            let up = u64::from(b.leading_zeros()) - ABOVE_LEAD;
            Unpacked {
                digits: b << up,
                exponent: LOWEST - up,
            }
        }
        1.. => {
            Unpacked {
                digits: LEAD + b % LEAD,
                exponent: field - 1 + LOWEST,
            }
        }
    }
}

// The number is digits * 2 ^ 52 * 4 ^ half / 4 ^ 1074, and digits has 53 or 54 digits.
#[derive(Clone, Copy)]
pub struct Scaled {
    pub digits: u64,
    pub half: u64,
}

// An exact scaling by a power of four, so that the root's exponent is half of it. An odd exponent gives one factor of two to the digits. No digit is lost.
#[tactic(auto, using(crate::proofs::Patterns::even_place, crate::proofs::Patterns::odd_place))]
pub fn halved(b: u64) -> Scaled
    requires { FinitePositive b }
    ensures { Halved b result.digits result.half }
{
    let u = unpack(b);
    let half = (u.exponent - BELOW_LEAD) / 2;
    if u.exponent % 2 == 0 {
        Scaled {
            digits: u.digits,
            half,
        }
    } else {
        Scaled {
            digits: u.digits * 2,
            half,
        }
    }
}

// ---- 3. root digits

// The whole root of a number, and what the number has above its square.
#[derive(Clone, Copy)]
pub struct RootDigits {
    pub whole: u64,
    pub rest: u64,
}

// The binary digits of the whole root of a number below 2 ^ 54: a turn for each, which takes two digits of the number.
const TURNS: u64 = 27;

// The whole root of digits, one digit a turn, with no branch.
#[tactic(auto, using(crate::proofs::Turns::small, crate::proofs::Turns::first, crate::proofs::Turns::byte_le))]
fn first_digits(digits: u64) -> RootDigits
    requires { digits < 2 ^ 54 }
    ensures { Digits digits result.whole result.rest }
{
    let mut feed = digits;
    let mut whole: u64 = 0;
    let mut rest: u64 = 0;
    for _turn in 0..TURNS {
        let now = rest * 4 + feed / LEAD;
        let trial = whole * 4 + 1;
        let digit = u64::from(trial <= now);
        feed = feed % LEAD * 4;
        rest = now - trial * digit;
        whole = whole * 2 + digit;
    }
    RootDigits { whole, rest }
}

// 2 ^ 26: the root of 2 ^ 52.
const HALF: u64 = 0x0400_0000;

// The whole root of digits * 2 ^ 52, and what is left. The first 27 digits come one by one, the other 26 by one division.
#[tactic(auto, using(crate::proofs::Divided::divided, crate::proofs::Divided::room))]
pub fn digits(digits: u64) -> RootDigits
    requires { (2 ^ 52 ≤ digits) × (digits < 2 ^ 54) }
    ensures { Digits (digits * 2 ^ 52) result.whole result.rest }
{
    let first = first_digits(digits);
    let more = first.rest * HALF;
    let twice = first.whole * 2;
    let next = more / twice;
    let left = more % twice * HALF;
    let whole = first.whole * HALF + next;
    if next * next <= left {
        RootDigits {
            whole,
            rest: left - next * next,
        }
    } else {
        RootDigits {
            whole: whole - 1,
            rest: left + whole * 2 - 1 - next * next,
        }
    }
}

// ---- 4. rounding

// The one rounding (4.3.1), to whole or the next number: the root is past the middle between them where rest is above whole.
// A tie would go to the even one, and there is none (`NoTie`).
pub fn rounded(whole: u64, rest: u64) -> u64
    requires { whole < 2 ^ 53 }
    ensures { result ≡ rounded_root whole rest }
{
    if rest <= whole { whole } else { whole + 1 }
}

// ---- the four together

// The root's pattern. The leading digit of the rounded root counts one in the exponent's field, and half is added there.
#[tactic(auto, using(crate::proofs::Core::whole_lt, crate::proofs::Core::rounded_le, crate::proofs::Core::rounded_bits))]
pub fn root_bits(b: u64) -> u64
    ensures { result ≡ root_bits b }
{
    match special(b) {
        Some(a) => a,
        None => {
            let s = halved(b);
            let r = digits(s.digits);
            rounded(r.whole, r.rest) + s.half * LEAD
        }
    }
}

// ---- patterns and values

// The pattern of any value; to_bits takes no NaN.
pub fn bits_of(x: f64) -> u64
    ensures { result ≡ to_bits binary64 x }
{
    if x.is_nan() { NAN } else { x.to_bits() }
}

// The value of any pattern; from_bits takes no NaN's.
pub fn value_of(b: u64) -> f64
    ensures { result ≡ of_bits binary64 b }
{
    if b % SIGN > INFINITY {
        f64::NAN
    } else {
        f64::from_bits(b)
    }
}

// The root of a value, by its pattern.
pub fn root(x: f64) -> f64
    ensures { result ≡ ieee_root binary64 x }
{
    value_of(root_bits(bits_of(x)))
}
