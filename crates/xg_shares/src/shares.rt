//! Shares of a number in proportion to weights.
ghost use Rattle.std.specs.Prelude.{◌≡◌, ℕ, ◌*◌, ◌+◌, ◌/◌, ◌^◌, ◌<◌, ◌≤◌, ◌≤ℤ◌, pos};
ghost use Rattle.std.specs.Prelude.{length, map, slice_index, unsigned_abs, All};
ghost use Rattle.def_round.specs.Shares.{weight_sum, shares};

/// Deals `n` units over weights, of which the first ones together get their part of `n`, rounded down.
///
/// Where all weights are 0, each counts as 1.
pub fn shares_into(n: u64, weights: &[i128], out: &mut [u64])
    requires as_many { length out.old ≡ length weights.now }
    requires some { 1 ≤ length weights.now }
    requires no_negative { All (λ w. pos 0 ≤ℤ w) weights.now }
    requires within { n * weight_sum (map unsigned_abs weights.now) < 2 ^ 127 }
    requires evenly_within { n * length weights.now < 2 ^ 127 }
    ensures { out.new ≡ shares n (map unsigned_abs weights.now) }
{
    if n == 0 {
        out.fill(0);
        return;
    }
    let sum = total(weights);
    if sum == 0 {
        deal_evenly(n, out);
    } else {
        deal_by_weight(n, weights, sum, out);
    }
}

fn total(weights: &[i128]) -> u128
    requires no_negative { All (λ w. pos 0 ≤ℤ w) weights.now }
    requires within { weight_sum (map unsigned_abs weights.now) < 2 ^ 127 }
    ensures { result ≡ weight_sum (map unsigned_abs weights.now) }
{
    let mut sum = 0;
    for i in 0..weights.len() {
        sum += weight_at(weights, i);
    }
    sum
}

fn weight_at(weights: &[i128], i: usize) -> u128
    requires within { i < length weights.now }
    requires no_negative { All (λ w. pos 0 ≤ℤ w) weights.now }
    ensures { result ≡ slice_index (map unsigned_abs weights.now) i }
{
    weights[i] as u128
}

// To each as much as to any other.
fn deal_evenly(n: u64, out: &mut [u64])
    requires some { 1 ≤ length out.old }
    requires within { n * length out.old < 2 ^ 127 }
    ensures count { length out.new ≡ length out.old }
    ensures each { (k : ℕ) → k < length out.old
        → slice_index out.new k + n * k / length out.old ≡ n * (k + 1) / length out.old }
{
    let count = out.len() as u128;
    let mut before = 0;
    for i in 0..out.len() {
        let upto = part(n, i as u128 + 1, count);
        out[i] = upto - before;
        before = upto;
    }
}

fn deal_by_weight(n: u64, weights: &[i128], sum: u128, out: &mut [u64])
    requires as_many { length out.old ≡ length weights.now }
    requires no_negative { All (λ w. pos 0 ≤ℤ w) weights.now }
    requires whole { sum ≡ weight_sum (map unsigned_abs weights.now) }
    requires some { 1 ≤ sum }
    requires within { n * sum < 2 ^ 127 }
    ensures { out.new ≡ shares n (map unsigned_abs weights.now) }
{
    let mut weight_upto = 0;
    let mut before = 0;
    for i in 0..weights.len() {
        let weight = weight_at(weights, i);
        weight_upto += weight;
        let upto = next_part(n, before, weight, weight_upto, sum);
        out[i] = upto - before;
        before = upto;
    }
}

// What the first weights get together, where `before` is what those before the last of them get.
fn next_part(n: u64, before: u64, weight: u128, weight_upto: u128, sum: u128) -> u64
    requires some { 1 ≤ sum }
    requires part { weight_upto ≤ sum }
    requires within { n * sum < 2 ^ 127 }
    requires none { weight ≡ 0 → before ≡ n * weight_upto / sum }
    ensures { result ≡ n * weight_upto / sum }
{
    if weight == 0 {
        before
    } else if weight_upto == sum {
        n
    } else {
        part(n, weight_upto, sum)
    }
}

// A division of 128 bits takes several times as long as one of 64.
fn part(n: u64, weight: u128, sum: u128) -> u64
    requires some { 1 ≤ sum }
    requires part { weight ≤ sum }
    requires within { n * sum < 2 ^ 127 }
    ensures { result ≡ n * weight / sum }
{
    let product = n as u128 * weight;
    if product <= u64::MAX as u128 && sum <= u64::MAX as u128 {
        product as u64 / sum as u64
    } else {
        (product / sum) as u64
    }
}
