// Worked examples: proved of the definitions as one table, and run through the code.
#![tactic(auto)]

ghost use Rattle.std.specs.Prelude.{◌≡◌};
ghost use Rattle.marked.specs.Marked.{Marked, how_many};

// How many marked examples there are; the contract says that each of them holds.
pub fn marked_tables() -> usize
    ensures holds { Marked }
    ensures value { result ≡ how_many }
{
    11
}

#[cfg(test)]
mod tests {
    use fit::table::Fit;
    use modulus::count::{Counts, count};
    use modulus::listed::{Modulus, PLACES};
    use modulus::refusal::Refusal;
    use plan::check::{first_bad, trays};
    use plan::cost::cost;
    use plan::step::{Op, Step};
    use poly::alike::alike;
    use poly::newton::evaluate;
    use poly::null::null;
    use poly::reduce::reduce;
    use std::process::Abort;
    use std::test::Fail;

    // The number of the refusal to open a fit with the modulus p ^ e, as a caller is shown it; none where it opens.
    fn opening(p: u32, e: u32) -> Option<u8> {
        let opened = Fit::new().open(p, e);
        opened.err().map(|refusal| refusal.number())
    }

    #[test]
    fn listed_moduli_open(rt: HostRuntime) {
        for (p, e) in [
            (2, 16),
            (3, 10),
            (5, 6),
            (7, 5),
            (11, 4),
            (13, 4),
            (17, 3),
            (2, 1),
            (17, 1),
        ] {
            assert_eq!(rt; opening(p, e), None);
        }
    }

    #[test]
    fn other_moduli_do_not(rt: HostRuntime) {
        for (p, e) in [
            (2, 17),
            (17, 4),
            (4, 1),
            (2, 0),
            (0, 1),
            (0, 0),
            (1, 1),
            (19, 1),
            (4294967295, 4294967295),
        ] {
            assert_eq!(rt; opening(p, e), Some(1));
        }
    }

    #[test]
    fn wide_values_are_refused(rt: HostRuntime) {
        let mut fit = Fit::new();
        assert!(rt; fit.open(2, 16).is_ok());
        for value in [65536, 65537, 99999, 4294967295] {
            assert_eq!(rt; fit.offer(value), Err(Refusal::TooLarge { place: 0 }));
        }
        assert!(rt; fit.offer(65535).is_ok());
    }

    #[test]
    fn short_buffers_are_refused(rt: HostRuntime) {
        let mut fit = Fit::new();
        assert!(rt; fit.open(3, 2).is_ok());
        for value in [0, 1, 2, 0] {
            assert!(rt; fit.offer(value).is_ok());
        }
        let mut buffer = [7u16; PLACES];
        let short = fit.report(&mut buffer[..3]);
        assert_eq!(rt; short, Err(Refusal::ShortBuffer { needed: 4 }));
        assert_eq!(rt; buffer[0], 7);
        assert!(rt; fit.report(&mut buffer).is_ok());
        assert_eq!(rt; &buffer[..5], [0, 1, 0, 1, 7].as_slice());
    }

    // The value at x of the polynomial with these coefficients in powers of X. As in `planned`, over u64: a test of one crate sees no test helper of another.
    fn value(modulus: &Modulus, list: &[u32], x: u32) -> u64 {
        let m = u64::from(modulus.value());
        let x = u64::from(x);
        list.iter().rev().fold(0, |value: u64, c| {
            value.wrapping_mul(x).wrapping_add(u64::from(*c)) % m
        })
    }

    // The reduced form of the list has its values at every whole number below the modulus.
    fn reduces(rt: &impl Abort, p: u32, e: u32, list: &[u32]) -> Result<(), Fail> {
        let modulus = Modulus::new(p, e)?;
        let mut reduced = [0u16; PLACES];
        let length = reduce(p, e, list, &mut reduced)?;
        assert!(rt; length <= PLACES);
        for x in 0..modulus.value() {
            let form = evaluate(&modulus, &reduced[..length], x as u16);
            assert_eq!(rt; u64::from(form), value(&modulus, list, x));
        }
        Ok(())
    }

    #[test]
    fn reduced_forms_have_the_same_values(rt: HostRuntime) -> Result<(), Fail> {
        let full = [
            1, 0, 3, 2, 1, 1, 0, 2, 3, 3, 1, 2, 0, 0, 1, 3, 2, 2, 1, 0, 3, 1, 1, 2, 0, 3, 3, 0, 1,
            2, 2, 1, 0, 1, 3, 2, 1, 3, 0, 2, 2, 3, 1, 1, 0, 0, 3, 3, 2, 1, 2, 0, 1, 0, 3, 1, 2, 2,
            3, 1, 0, 1, 1, 3,
        ];
        for (p, e) in [
            (2, 2),
            (2, 3),
            (2, 5),
            (3, 2),
            (3, 3),
            (5, 1),
            (5, 2),
            (7, 2),
            (11, 1),
            (13, 2),
            (17, 1),
        ] {
            reduces(&rt, p, e, &full)?;
            reduces(&rt, p, e, &full[0..3])?;
            reduces(&rt, p, e, &full[7..20])?;
            reduces(&rt, p, e, &[])?;
        }
        Ok(())
    }

    #[test]
    fn lists_are_refused_in_order(rt: HostRuntime) {
        let long = [9u32; 65];
        let mut out = [5u16; 3];
        assert_eq!(rt; refusal_of(reduce(4, 1, &long, &mut out)), Some((1, 0)));
        assert_eq!(rt; refusal_of(reduce(2, 3, &long, &mut out)), Some((7, 65)));
        assert_eq!(rt;
            refusal_of(reduce(2, 3, &[1, 7, 8, 9], &mut out)),
            Some((2, 2))
        );
        assert_eq!(rt; refusal_of(reduce(2, 3, &[1, 7], &mut out)), Some((6, 4)));
        assert_eq!(rt; refusal_of(null(2, 3, 64, &mut out)), Some((7, 64)));
        assert_eq!(rt; refusal_of(null(2, 3, 3, &mut out)), Some((6, 4)));
        assert_eq!(rt; out[0], 5);
        assert!(rt; null(2, 3, 2, &mut out).is_ok());
        assert_eq!(rt; out, [0, 4, 4]);
    }

    // The number and the place of the refusal, as a caller is shown them; none where there is an answer. A test of one crate sees no helper of another's.
    fn refusal_of(answer: Result<usize, Refusal>) -> Option<(u8, usize)> {
        answer
            .err()
            .map(|refusal| (refusal.number(), refusal.place()))
    }

    #[test]
    fn step_160_is_bad(rt: HostRuntime) -> Result<(), Fail> {
        let modulus = Modulus::new(2, 3)?;
        let steps = [Step {
            op: Op::Shift,
            to: 1,
            a: 0,
            b: 0,
            k: 7,
        }; 161];
        assert!(rt; first_bad(&modulus, &steps[0..160]).is_none());
        assert_eq!(rt; first_bad(&modulus, &steps), Some(160));
        assert_eq!(rt; trays(&steps), 2);
        assert!(rt; cost(&steps).is_err());
        Ok(())
    }

    #[test]
    fn comparisons(rt: HostRuntime) {
        assert_eq!(rt; told(alike(2, 2, &[0, 1], &[0, 3, 2])), Ok(true));
        assert_eq!(rt; told(alike(3, 2, &[0, 1], &[0, 0, 0, 1])), Ok(false));
        assert_eq!(rt; told(alike(3, 2, &[0, 9], &[9; 65])), Err(2));
        assert_eq!(rt; told(alike(3, 2, &[0, 1], &[9; 65])), Err(7));
    }

    // Whether two lists are alike, or the refusal's number, as a caller is shown it.
    fn told(answer: Result<bool, Refusal>) -> Result<bool, u8> {
        answer.map_err(|refusal| refusal.number())
    }

    #[test]
    fn counts(rt: HostRuntime) -> Result<(), Fail> {
        let expected = Counts { mu: 10, digits: 50 };
        assert_eq!(rt; count(2, 8)?, expected);
        Ok(())
    }
}
