use crate::SweepWords;

// Words of the seed 42 on the stream 54, by the reference implementation of the generator.
#[test]
fn words_of_a_seed_from_any_sweep_on(rt: HostRuntime) {
    let first: [u32; 6] = [
        0xa15c_02b7,
        0x7b47_f409,
        0xba1d_3330,
        0x83d2_f293,
        0xbfa4_784b,
        0xcbed_606e,
    ];
    let mut words = SweepWords::at(42, 1, 0);
    for word in first {
        assert_eq!(rt; words.next(), word);
    }
    let mut later = SweepWords::at(42, 1, 1);
    for word in &first[3..] {
        assert_eq!(rt; later.next(), *word);
    }
    // sweep 3 of two monomers begins with word 18, sweep 6 of one monomer too
    let mut two = SweepWords::at(42, 2, 3);
    let mut one = SweepWords::at(42, 1, 6);
    assert_eq!(rt; two.next(), one.next());
    // far sweeps have words too
    let mut last = SweepWords::at(u64::MAX, 262_144, 1_099_511_627_776);
    let _word = last.next();
}
