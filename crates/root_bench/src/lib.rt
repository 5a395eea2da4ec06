// What bench/root times: the sum of four roots, the lanes together and one after the other.
#![tactic(auto)]

ghost use Rattle.std.specs.Prelude.{◌≡◌};
ghost use Rattle.root_bench.specs.Sum.{root_sum};

#[unsafe(no_mangle)]
pub extern "C" fn root_sum_together(a: f64, b: f64, c: f64, d: f64) -> f64
    ensures { result ≡ root_sum a b c d }
{
    let r = root4::root4([a, b, c, d]);
    r[0] + r[1] + (r[2] + r[3])
}

#[unsafe(no_mangle)]
pub extern "C" fn root_sum_one_by_one(a: f64, b: f64, c: f64, d: f64) -> f64
    ensures { result ≡ root_sum a b c d }
{
    root::root(a) + root::root(b) + (root::root(c) + root::root(d))
}
