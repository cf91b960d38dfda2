// Plans as they are written for fits, run at whole numbers. The tests are all that this crate has.

#![tactic(auto)]

ghost use Rattle.std.specs.Prelude.{◌<◌};

#[cfg(test)]
mod tests {
    use fit::table::Fit;
    use modulus::listed::Modulus;
    use plan::check::{STEPS, first_bad};
    use plan::cost::{Price, cost};
    use plan::step::{Op, Step};
    use planner::issue::{LARGEST_BLOCK, plan};
    use planner::kind::Kind;
    use poly::newton::evaluate;
    use std::process::Abort;
    use std::test::Fail;

    // A step that no plan has.
    const FILL: Step = Step {
        op: Op::Add,
        to: 255,
        a: 255,
        b: 255,
        k: 65535,
    };

    // The values modulo n of the polynomial with these coefficients in powers of X.
    #[derive(Clone, Copy)]
    struct Values<'a> {
        list: &'a [u32],
        n: u32,
        ghost some: { 0 < n },
    }

    impl Values<'_> {
        // The value at x. Nothing wraps: x and n are at most 65,536.
        // As `value` in `marked`, over u32: a test of one crate sees no test helper of another.
        fn at(&self, x: u32) -> u32 {
            let n = self.n;
            self.list.iter().rev().fold(
                0,
                |value: u32, c| value.wrapping_mul(x).wrapping_add(*c) % n,
            )
        }
    }

    // The squares modulo 8.
    const SQUARES: Values<'static> = Values {
        list: &[0, 0, 1],
        n: 8,
    };

    // What a step writes under the modulus, by what the trays hold.
    fn written(modulus: &Modulus, trays: &[u32; 256], s: Step) -> u32 {
        let a = trays[usize::from(s.a)];
        let b = trays[usize::from(s.b)];
        let k = u32::from(s.k);
        let result = match s.op {
            Op::Add => a.wrapping_add(b),
            Op::Multiply => a.wrapping_mul(b),
            Op::Scale => a.wrapping_mul(k),
            Op::Shift => a.wrapping_add(k),
        };
        result % modulus.value()
    }

    // What the steps answer under the modulus for the input x, which tray 0 has: what the last of them writes.
    fn run(modulus: &Modulus, steps: &[Step], x: u32) -> u32 {
        let mut trays = [0u32; 256];
        trays[0] = x;
        let mut answer = x;
        for s in steps {
            answer = written(modulus, &trays, *s);
            trays[usize::from(s.to)] = answer;
        }
        answer
    }

    // A fit with the modulus p ^ e, to which the values were offered until one was refused, at most this many.
    fn fitted(p: u32, e: u32, values: Values<'_>, most: u32) -> Result<Fit, Fail> {
        let mut fit = Fit::new();
        fit.open(p, e)?;
        for x in 0..most {
            if fit.offer(values.at(x)).is_err() {
                break;
            }
        }
        Ok(fit)
    }

    // At x the steps answer the value of the fit's form; below the number of standing values, that is the one in this place.
    fn check_answer(rt: &impl Abort, fit: &Fit, steps: &[Step], values: Values<'_>, x: u16) {
        let modulus = fit.modulus();
        let place = u32::from(x);
        let answer = run(&modulus, steps, place);
        assert_eq!(rt; answer, evaluate(&modulus, &fit.form(), x));
        assert!(rt; place >= fit.count() || answer == values.at(place));
    }

    // The plan of this kind for the fit: what is written, what it costs, what it answers, and a buffer that is too short for it.
    // A modulus up to 256 has every number below it run, and it and the next one too.
    fn check_plan(rt: &impl Abort, fit: &Fit, kind: Kind, values: Values<'_>) -> Result<(), Fail> {
        let mut buffer = [FILL; STEPS];
        let price = plan(fit, kind, &mut buffer)?;
        assert!(rt; price.steps <= STEPS);
        let steps = &buffer[..price.steps];
        assert!(rt; first_bad(&fit.modulus(), steps).is_none());
        assert_eq!(rt; cost(steps)?, price);
        assert!(rt; steps.iter().all(|s| s.to != 0));
        assert!(rt; is_filled(&buffer[price.steps..]));
        for x in 0..258 {
            check_answer(rt, fit, steps, values, x);
        }
        check_answer(rt, fit, steps, values, 65535);
        check_short(rt, fit, kind, price.steps);
        Ok(())
    }

    // A buffer one step too short is refused with the number of steps needed, and stays.
    fn check_short(rt: &impl Abort, fit: &Fit, kind: Kind, needed: usize) {
        let mut buffer = [FILL; STEPS];
        assert!(rt; needed >= 1 && needed <= STEPS);
        let short = &mut buffer[..needed - 1];
        assert_eq!(rt; refused(fit, kind, short), Some((6, needed)));
        assert!(rt; is_filled(short));
    }

    // Whether every step of the buffer is still the one that it was filled with. By an iterator: there is no list to compare with.
    fn is_filled(buffer: &[Step]) -> bool {
        buffer.iter().all(|s| *s == FILL)
    }

    // The number and the place of the refusal of a plan, as a caller is shown them; none where it is written. A test of one crate sees no helper of another's.
    fn refused(fit: &Fit, kind: Kind, buffer: &mut [Step]) -> Option<(u8, usize)> {
        plan(fit, kind, buffer)
            .err()
            .map(|refusal| (refusal.number(), refusal.place()))
    }

    // Every plan for the values, with none, a few and as many as stand.
    fn check_plans(rt: &impl Abort, p: u32, e: u32, values: Values<'_>) -> Result<(), Fail> {
        for most in [0, 1, 2, 5, 65536] {
            let fit = fitted(p, e, values, most)?;
            check_plan(rt, &fit, Kind::Ladder, values)?;
            for size in 1..=LARGEST_BLOCK {
                check_plan(rt, &fit, Kind::Block { size }, values)?;
            }
        }
        Ok(())
    }

    #[test]
    fn plans_answer_the_values(rt: HostRuntime) -> Result<(), Fail> {
        for (p, e) in [
            (2, 3),
            (2, 5),
            (2, 8),
            (2, 16),
            (3, 2),
            (3, 3),
            (5, 2),
            (7, 2),
            (11, 1),
            (13, 2),
            (13, 4),
        ] {
            let modulus = Modulus::new(p, e)?;
            let n = modulus.value();
            let lists: [&[u32]; 5] = [&[], &[1], &[0, 0, 1], &[0, 2, 0, 1], &[1; 60]];
            for list in lists {
                check_plans(&rt, p, e, Values { list, n })?;
            }
            let list = &[0, 1];
            let n = modulus.prime();
            check_plans(&rt, p, e, Values { list, n })?;
        }
        Ok(())
    }

    #[test]
    fn plans_of_a_square_cost(rt: HostRuntime) -> Result<(), Fail> {
        let fit = fitted(2, 3, SQUARES, 4)?;
        let mut buffer = [FILL; STEPS];
        assert_eq!(rt;
            plan(&fit, Kind::Ladder, &mut buffer)?,
            Price {
                steps: 6,
                multiplications: 1,
                depth: 1,
            }
        );
        assert_eq!(rt;
            plan(&fit, Kind::Block { size: 2 }, &mut buffer)?,
            Price {
                steps: 9,
                multiplications: 2,
                depth: 2,
            }
        );
        Ok(())
    }

    #[test]
    fn other_sizes_are_refused(rt: HostRuntime) -> Result<(), Fail> {
        let fit = fitted(2, 3, SQUARES, 4)?;
        for size in [0, 9] {
            let mut buffer = [FILL; STEPS];
            assert_eq!(rt;
                refused(&fit, Kind::Block { size }, &mut buffer),
                Some((7, size))
            );
            assert_eq!(rt;
                refused(&fit, Kind::Block { size }, &mut []),
                Some((7, size))
            );
            assert!(rt; is_filled(&buffer));
        }
        Ok(())
    }
}
