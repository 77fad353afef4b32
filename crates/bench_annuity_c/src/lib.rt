// The two fills of bench_annuity, exported under C names: each calls the function of its name there, and promises what
// that promises. bench/annuity links the archive.
#![tactic(auto)]

ghost use Rattle.std.specs.Prelude.{true, ◌≡◌};
ghost use Rattle.factors.specs.Basis.{basis};
ghost use Rattle.factors.specs.Factors.{A as Factors-as-A, Z};
ghost use Rattle.year_steps.specs.Filled.{Filled};
ghost use Rattle.bench_annuity.specs.Rows.{rows_of};

// A(k) for each age.
#[unsafe(no_mangle)]
pub extern "C" fn bench_annuity_life_annuity(
    numbers: &[u32],
    r: usize,
    i: u64,
    out: &mut [u64],
) -> bool
    ensures { result ≡ true → Filled (Factors-as-A (basis (rows_of numbers.now) r i)) 120 15 out.new }
{
    bench_annuity::bench_annuity_life_annuity(numbers, r, i, out)
}

// Z(k,e) for each age up to e.
#[unsafe(no_mangle)]
pub extern "C" fn bench_annuity_pay_annuity(
    numbers: &[u32],
    r: usize,
    i: u64,
    e: usize,
    out: &mut [u64],
) -> bool
    ensures { result ≡ true → Filled (λ k. Z (basis (rows_of numbers.now) r i) k e) e 15 out.new }
{
    bench_annuity::bench_annuity_pay_annuity(numbers, r, i, e, out)
}
