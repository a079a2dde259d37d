// The complementary check, exported to C under its own name for bench/stack.
#![tactic(auto)]

ghost use Rattle.std.specs.Prelude.{◌≡◌};
ghost use Rattle.words.specs.Bits.{of_bool};
ghost use Rattle.switch.specs.Records.{type_of};
ghost use Rattle.switch.specs.Deciding.{is_complementary};
ghost use Rattle.bench_check.specs.Judged.{judged};

// 1 where that type is complementary, and 0 where it is not.
#[unsafe(no_mangle)]
pub extern "C" fn bench_check(h: u8, o: u8, k: u8, node: u8, label: u8, count: u8) -> u64
    ensures { result ≡ of_bool (is_complementary (type_of (judged h o k node label count))) }
{
    bench_check::bench_check(h, o, k, node, label, count)
}
