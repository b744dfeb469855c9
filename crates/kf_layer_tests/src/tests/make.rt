// The made text, whole.
use kf_make::make_source;

const TWO: &str = "var x : 0..63 := uniform 0..63;
observe choose { x mod 2 : 3, 1 - x mod 2 : 1 };
observe choose { x mod 2 : 3, 1 - x mod 2 : 1 };
";

#[test]
fn two_observations(rt: HostRuntime) {
    let text = make_source(rt.alloc(), 2).expect(&rt, "memory");
    assert_eq!(rt; text.as_slice(), TWO.as_bytes());
}
