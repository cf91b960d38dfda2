// Kinds of elements: one more kind, which shows how to add one, and tests of every kind, of runs and of holds.
#![tactic(auto)]

pub mod triple;

#[cfg(test)]
mod tests {
    use crate::triple::Triple;
    use element::bare::Bare;
    use element::levelled::Levelled;
    use element::rules::{Element, Open};
    use element::twin::Twin;
    use modulus::listed::Modulus;
    use modulus::refusal::Refusal;
    use rack::rack::Rack;
    use rack::run::run;
    use rack::tally::Tally;
    use shown::tables::SQUARE;
    use std::process::Abort;
    use std::test::Fail;

    // A kind of which the tests make elements: by three numbers, of which a kind with fewer lanes takes the first ones.
    trait Made: Open {
        // How many lanes the kind has.
        const WIDTH: usize;

        fn made(lanes: [u16; 3]) -> Self;
    }

    impl Made for Bare {
        const WIDTH: usize = 1;

        fn made(lanes: [u16; 3]) -> Bare {
            Bare::new(lanes[0])
        }
    }

    impl Made for Twin {
        const WIDTH: usize = 2;

        fn made(lanes: [u16; 3]) -> Twin {
            Twin::new(lanes[0], lanes[1])
        }
    }

    impl Made for Triple {
        const WIDTH: usize = 3;

        fn made(lanes: [u16; 3]) -> Triple {
            Triple::new(lanes[0], lanes[1], lanes[2])
        }
    }

    // At level 1: one multiplication is answered.
    impl<E: Made> Made for Levelled<E> {
        const WIDTH: usize = E::WIDTH;

        fn made(lanes: [u16; 3]) -> Levelled<E> {
            Levelled::new(E::made(lanes), 1)
        }
    }

    // What the five operations give, lane by lane.
    struct Worked {
        sum: [u16; 3],
        product: [u16; 3],
        scaled: [u16; 3],
        shifted: [u16; 3],
        lowered: [u16; 3],
    }

    // The element shows these lanes, as many as its kind has, and none above.
    fn check_lanes<E: Made>(rt: &impl Abort, x: E, lanes: [u16; 3]) {
        let width = E::WIDTH;
        for (i, lane) in lanes.iter().enumerate() {
            assert_eq!(rt; x.lane(i), (i < width).then_some(*lane));
        }
        assert_eq!(rt; x.lane(width), None);
        assert_eq!(rt; x.lane(usize::MAX), None);
    }

    // The operations of a kind on two elements and the number 65535, and the lowering of a third.
    fn check_kind<E: Made>(
        rt: &impl Abort,
        modulus: &Modulus,
        lowest: [u16; 3],
        worked: &Worked,
    ) -> Result<(), Fail> {
        let x = E::made([5, 65535, 6]);
        let y = E::made([7, 65535, 3]);
        check_lanes(rt, x, [5, 65535, 6]);
        check_lanes(rt, x.add(y, modulus), worked.sum);
        check_lanes(rt, x.multiply(y, modulus)?, worked.product);
        check_lanes(rt, x.scale(65535, modulus), worked.scaled);
        check_lanes(rt, x.shift(65535, modulus), worked.shifted);
        check_lanes(rt, E::made(lowest).lower(modulus), worked.lowered);
        Ok(())
    }

    // The same of every kind.
    fn check_kinds(
        rt: &impl Abort,
        p: u32,
        e: u32,
        lowest: [u16; 3],
        worked: &Worked,
    ) -> Result<(), Fail> {
        let modulus = Modulus::new(p, e)?;
        check_kind::<Bare>(rt, &modulus, lowest, worked)?;
        check_kind::<Twin>(rt, &modulus, lowest, worked)?;
        check_kind::<Levelled<Bare>>(rt, &modulus, lowest, worked)?;
        check_kind::<Levelled<Levelled<Twin>>>(rt, &modulus, lowest, worked)?;
        check_kind::<Triple>(rt, &modulus, lowest, worked)
    }

    // Sums and products of 65535 go past 16 bits before they are reduced; 65535 is a multiple of 3.
    #[test]
    fn operations_are_lane_by_lane(rt: HostRuntime) -> Result<(), Fail> {
        check_kinds(
            &rt,
            3,
            2,
            [6, 65535, 0],
            &Worked {
                sum: [3, 3, 0],
                product: [8, 0, 0],
                scaled: [3, 0, 0],
                shifted: [2, 3, 3],
                lowered: [2, 21845, 0],
            },
        )?;
        check_kinds(
            &rt,
            2,
            16,
            [6, 65534, 0],
            &Worked {
                sum: [12, 65534, 9],
                product: [35, 1, 18],
                scaled: [65531, 1, 65530],
                shifted: [4, 65534, 5],
                lowered: [3, 32767, 0],
            },
        )
    }

    // An element with levels on two layers.
    fn layered(outer: u8, inner: u8) -> Levelled<Levelled<Twin>> {
        Levelled::new(Levelled::new(Twin::new(3, 6), inner), outer)
    }

    // A multiplication is refused where either layer has no level left; a sum has the smaller level, and the other operations keep it.
    #[test]
    fn levels_are_used_up(rt: HostRuntime) -> Result<(), Fail> {
        let modulus = Modulus::new(2, 3)?;
        let x = layered(2, 5);
        assert!(rt; x.multiply(layered(0, 5), &modulus).is_err());
        assert!(rt; layered(2, 0).multiply(x, &modulus).is_err());
        let y = x.multiply(x, &modulus)?;
        assert_eq!(rt; y.left(), 1);
        assert_eq!(rt; x.add(y, &modulus).left(), 1);
        assert_eq!(rt; y.scale(3, &modulus).left(), 1);
        assert_eq!(rt; y.shift(3, &modulus).left(), 1);
        assert_eq!(rt; y.lower(&modulus).left(), 1);
        assert!(rt; y.multiply(x, &modulus)?.multiply(x, &modulus).is_err());
        Ok(())
    }

    // Runs the ladder of the form 0,1,1,0 modulo 8, which is X + X(X − 1), over the input on a rack over the buffer.
    fn climb<E: Element>(input: E, buffer: &mut [E]) -> Result<E, Refusal> {
        let mut rack = Rack::new(buffer);
        let mut tally = Tally::new();
        run(2, 3, &SQUARE, input, &mut rack, &mut tally)
    }

    // The number and the place of a refusal; none for an answer. By number and place, as a caller is shown them; a test of one crate sees no helper of another's.
    fn refused<E: Element>(answer: Result<E, Refusal>) -> Option<(u8, usize)> {
        answer.err().map(|f| (f.number(), f.place()))
    }

    #[test]
    fn runs_square_each_lane(rt: HostRuntime) -> Result<(), Fail> {
        let mut buffer = [Triple::new(0, 0, 0); 3];
        check_lanes(&rt, climb(Triple::new(3, 6, 7), &mut buffer)?, [1, 4, 1]);
        check_lanes(
            &rt,
            climb(Triple::new(0, 8, 65535), &mut buffer)?,
            [0, 0, 1],
        );
        check_lanes(&rt, buffer[0], [0, 8, 65535]);
        Ok(())
    }

    // The ladder needs three trays, and its only multiplication is step 4.
    #[test]
    fn runs_are_refused(rt: HostRuntime) -> Result<(), Fail> {
        let mut few = [Bare::new(0); 2];
        assert_eq!(rt; refused(climb(Bare::new(3), &mut few)), Some((9, 3)));
        let mut buffer = [Levelled::new(Bare::new(0), 0); 3];
        let spent = Levelled::new(Bare::new(3), 0);
        assert_eq!(rt; refused(climb(spent, &mut buffer)), Some((10, 4)));
        let fresh = Levelled::new(Bare::new(3), 1);
        check_lanes(&rt, climb(fresh, &mut buffer)?, [1, 0, 0]);
        Ok(())
    }

    // The run takes the trays above what is out, and leaves the one below and the tally.
    #[test]
    fn runs_stay_above_a_hold(rt: HostRuntime) -> Result<(), Fail> {
        let mut buffer = [Bare::new(7); 4];
        let mut rack = Rack::new(&mut buffer);
        let mut tally = Tally::new();
        let mut hold = tally.hold();
        hold.take(1, rack.len())?;
        let answer = run(2, 3, &SQUARE, Bare::new(3), &mut rack, hold.tally)?;
        assert_eq!(rt; hold.tally.out(), 1);
        check_lanes(&rt, answer, [1, 0, 0]);
        check_lanes(&rt, buffer[0], [7, 0, 0]);
        check_lanes(&rt, buffer[1], [3, 0, 0]);
        Ok(())
    }

    // A take that is refused leaves the tally as it is, and each hold gives its trays back where its scope ends.
    #[test]
    fn holds_give_back(rt: HostRuntime) -> Result<(), Fail> {
        let mut tally = Tally::new();
        {
            let mut outer = tally.hold();
            outer.take(2, 5)?;
            {
                let mut inner = outer.tally.hold();
                inner.take(2, 5)?;
                assert_eq!(rt; inner.tally.out(), 4);
                assert_eq!(rt; inner.take(2, 5), Err(Refusal::NoTrays { needed: 2 }));
                assert_eq!(rt; inner.tally.out(), 4);
                inner.take(1, 5)?;
                assert_eq!(rt; inner.tally.free(5), 0);
            }
            assert_eq!(rt; outer.tally.out(), 2);
        }
        assert_eq!(rt; tally.out(), 0);
        Ok(())
    }

    // Takes three trays of five, and then three more, which is refused.
    fn take_too_many(tally: &mut Tally) -> Result<(), Refusal> {
        let mut hold = tally.hold();
        hold.take(3, 5)?;
        hold.take(3, 5)
    }

    #[test]
    fn holds_give_back_on_refusals(rt: HostRuntime) {
        let mut tally = Tally::new();
        assert_eq!(rt;
            take_too_many(&mut tally),
            Err(Refusal::NoTrays { needed: 3 })
        );
        assert_eq!(rt; tally.out(), 0);
    }
}
