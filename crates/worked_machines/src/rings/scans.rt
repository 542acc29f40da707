//! Scans, by their first numbers.
use crate::checks::equal;
use share_rings::Scan;

/// Returns the first three numbers of a scan.
pub fn numbers(mut scan: Scan) -> [u32; 3] {
    [scan.next(), scan.next(), scan.next()]
}

#[test]
fn scans(rt: HostRuntime) {
    equal(&rt, numbers(Scan::sequential(2)), [0, 1, 0]);
    equal(&rt, numbers(Scan::random(7, 1)), [0, 0, 0]);
    // The first words of the reference generator for the seed 0 are 298703107 and 4236525527.
    let [first, second, _] = numbers(Scan::random(0, 1000));
    equal(&rt, [first, second], [107, 527]);
}
