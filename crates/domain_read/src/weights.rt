//! Weights of outcomes, as exact fractions.

ghost use Rattle.std.specs.Prelude.{
  ◌≡◌,
  ◌<◌,
  ◌≤◌,
  ◌+◌,
  ◌*◌,
  ◌/◌,
  ◌^◌,
  ◌==◌,
  true,
  length,
  IfSome,
  Some,
};
ghost use Rattle.std.specs.List.{position};
ghost use Rattle.std.specs.Option.{option_map};
ghost use Rattle.sexpr_text.specs.Forest.{forest_of};
ghost use Rattle.sexpr_text.specs.Numerals as numerals;
ghost use Rattle.domain_read.specs.Weights as weights;

use sexpr_text::{Form, View, numeral_in};

/// A fraction, exactly.
#[derive(Clone, Copy, Debug)]
pub struct Fraction {
    pub over: u64,
    pub under: u64,
}

/// How the sum of a list's weights stands to 1.
#[derive(Clone, Copy, Debug)]
pub enum Mass {
    /// It is less than 1.
    Missing,
    /// It is 1.
    Whole,
    /// It is more than 1.
    Over,
}

/// The greatest common denominator that the weights of a list may have.
const MOST_UNDER: u128 = 1_000_000_000_000_000_000;

// The number that a text of one to nine decimal digits writes.
fn numeral(text: &[u8]) -> Option<u64>
    ensures value { result ≡ numerals.numeral text.now }
    ensures bound { IfSome result (λ n. n < 1000000000) }
    ensures short { IfSome result (λ n. length text.now ≤ 9) }
{
    let number = numeral_in(text)?;
    Some(u64::from(number))
}

// The first place of this byte.
fn place_of(text: &[u8], byte: u8) -> Option<usize>
    ensures place { result ≡ position (λ x. x == byte) text.now }
    ensures inside { IfSome result (λ i. i < length text.now) }
{
    text.iter().position(|other| *other == byte)
}

// What stands before the first byte of this value, and after it.
fn cut_at(text: &[u8], byte: u8) -> Option<(&[u8], &[u8])>
    ensures { option_map (λ p. (p.0.now, p.1.now)) result ≡ weights.cut_at byte text.now }
{
    let place = place_of(text, byte)?;
    let (front, _) = text.split_at(place);
    let (_, back) = text.split_at(place + 1);
    Some((front, back))
}

// The power of ten.
#[tactic(auto, using(crate::proofs::Multiples::some_power))]
fn power_of_ten(exponent: usize) -> u64
    requires { exponent ≤ 9 }
    ensures value { result ≡ 10 ^ exponent }
    ensures bound { result ≤ 1000000000 }
    ensures some { 1 ≤ result }
{
    let mut power = 1;
    for step in 0..exponent {
        power *= 10;
    }
    power
}

// `12`
fn whole(text: &[u8]) -> Option<Fraction>
    ensures value { result ≡ weights.whole text.now }
    ensures bound { IfSome result (λ f. weights.IsSmall f) }
{
    let over = numeral(text)?;
    Some(Fraction { over, under: 1 })
}

// `12.50`
fn decimal(front: &[u8], back: &[u8]) -> Option<Fraction>
    ensures value { result ≡ weights.decimal (front.now, back.now) }
    ensures bound { IfSome result (λ f. weights.IsSmall f) }
{
    let units = numeral(front)?;
    let decimals = numeral(back)?;
    let under = power_of_ten(back.len());
    Some(Fraction {
        over: units * under + decimals,
        under,
    })
}

// `1/3`
fn ratio(front: &[u8], back: &[u8]) -> Option<Fraction>
    ensures value { result ≡ weights.ratio (front.now, back.now) }
    ensures bound { IfSome result (λ f. weights.IsSmall f) }
{
    let over = numeral(front)?;
    let under = numeral(back)?;
    if under == 0 {
        return None;
    }
    Some(Fraction { over, under })
}

/// The weight that a text writes.
#[tactic(auto, unfolding(crate::specs::Weights::weight))]
pub fn weight(text: &[u8]) -> Option<Fraction>
    ensures value { result ≡ weights.weight text.now }
    ensures bound { IfSome result (λ f. weights.IsSmall f) }
{
    if let Some((front, back)) = cut_at(text, b'.') {
        return decimal(front, back);
    }
    match cut_at(text, b'/') {
        Some((front, back)) => ratio(front, back),
        None => whole(text),
    }
}

/// Whether a text is a weight of 0.
pub fn weighs_nothing(text: &[u8]) -> bool
    ensures { result ≡ weights.weighs_nothing text.now }
{
    match weight(text) {
        Some(weight) => weight.over == 0,
        None => false,
    }
}

// The greatest common divisor of two numbers above 0.
fn gcd(a: u64, b: u64) -> u64
    requires a { 0 < a }
    requires b { 0 < b }
    ensures value { result ≡ weights.gcd a b }
    ensures some { 0 < result }
    ensures within { result ≤ a }
{
    let mut greater = a;
    let mut lesser = b;
    while lesser != 0 {
        let rest = greater % lesser;
        greater = lesser;
        lesser = rest;
    }
    greater
}

/// The least common multiple of `multiple` and the weight's denominator, where there is a weight and
/// the multiple is not too great.
#[tactic(auto, using(crate::proofs::Multiples::some_multiple))]
pub fn common_with(multiple: u64, weight: Option<Fraction>) -> Option<u64>
    requires some { 1 ≤ multiple }
    requires bound { multiple ≤ weights.most_under }
    requires small { IfSome weight (λ f. weights.IsSmall f) }
    ensures value { result ≡ weights.common_with multiple weight }
    ensures some { IfSome result (λ m. 1 ≤ m) }
    ensures bound { IfSome result (λ m. m ≤ weights.most_under) }
{
    let weight = weight?;
    let factor = multiple / gcd(multiple, weight.under);
    let common = u128::from(factor) * u128::from(weight.under);
    if common > MOST_UNDER {
        return None;
    }
    Some(common as u64)
}

// The weight that a form is.
fn weight_of(form: View<'_>) -> Option<Fraction>
    ensures value { result ≡ weights.view_weight form.entry }
    ensures bound { IfSome result (λ f. weights.IsSmall f) }
{
    match form {
        View::Word(_, text) => weight(text.as_bytes()),
        View::Group(_, _) => None,
    }
}

// The least common denominator of the weights in a row of weights and effects, where all are
// weights and it is not too great.
fn common_of(row: &[Form]) -> Option<u64>
    ensures value { result ≡ weights.common_of 1 (weights.weights_of true (forest_of row.now)) }
    ensures some { IfSome result (λ m. 1 ≤ m) }
    ensures bound { IfSome result (λ m. m ≤ weights.most_under) }
{
    let mut common = 1;
    let mut is_weight = true;
    for form in row {
        let view = form.view();
        if is_weight {
            common = common_with(common, weight_of(view))?;
        }
        is_weight = !is_weight;
    }
    Some(common)
}

// How many of the parts of 1 a weight is, where there are so many parts.
fn shares(parts: u64, weight: Option<Fraction>) -> u128
    requires small { IfSome weight (λ f. weights.IsSmall f) }
    requires bound { parts ≤ weights.most_under }
    ensures value { result ≡ weights.shares parts weight }
    ensures bound { result ≤ 2000000000000000000000000000000000000 }
{
    match weight {
        Some(weight) => u128::from(weight.over) * u128::from(parts / weight.under),
        None => 0,
    }
}

// How the sum of the weights stands to 1, where they have this common denominator.
fn mass_of_parts(parts: u64, row: &[Form]) -> Mass
    requires bound { parts ≤ weights.most_under }
    ensures { result ≡ weights.mass_of_sum parts
        (weights.sum_of parts (weights.weights_of true (forest_of row.now))) }
{
    let mut sum: u128 = 0;
    let mut is_weight = true;
    for form in row {
        let view = form.view();
        if is_weight {
            sum += shares(parts, weight_of(view));
            if sum > u128::from(parts) {
                return Mass::Over;
            }
        }
        is_weight = !is_weight;
    }
    if sum == u128::from(parts) {
        Mass::Whole
    } else {
        Mass::Missing
    }
}

/// How the sum of the weights in a row of weights and effects stands to 1, where they have a common
/// denominator.
#[tactic(auto, unfolding(crate::specs::Weights::mass))]
pub fn mass_of(row: &[Form]) -> Option<Mass>
    ensures { result ≡ weights.mass (forest_of row.now) }
{
    let parts = common_of(row)?;
    Some(mass_of_parts(parts, row))
}
