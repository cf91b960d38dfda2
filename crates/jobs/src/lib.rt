// Jobs and the reports on them, byte for byte. The tests are all that this crate has.

#![tactic(auto)]

#[cfg(test)]
mod tests {
    use job::call::report;
    use std::process::Abort;
    use std::test::Fail;

    // More bytes than any report has: `PAGE` of the crate job, which is private, is 744.
    const TEXT: usize = 1024;

    // The byte that a buffer is filled with; no report has it.
    const FILL: u8 = 255;

    // The most bytes of a job. `BYTES` of the crate job is private; this is the same.
    const LONGEST: usize = 4096;

    // The report on the job is this text, what lies past it stays, and a buffer one byte too short is refused and stays.
    fn check_report(rt: &impl Abort, job: &[u8], expected: &[u8]) -> Result<(), Fail> {
        let mut text = [FILL; TEXT];
        let written = report(job, &mut text)?;
        let (front, rest) = text.split_at(written);
        assert_eq!(rt; front, expected);
        assert!(rt; rest.iter().all(|byte| *byte == FILL));
        check_short(rt, job, written)
    }

    // A buffer one byte too short is refused with the bytes needed, and stays. The refusal is told by number and place, as a caller is shown it.
    fn check_short(rt: &impl Abort, job: &[u8], needed: usize) -> Result<(), Fail> {
        let mut buffer = [FILL; TEXT];
        assert!(rt; needed >= 1 && needed <= TEXT);
        let short = &mut buffer[0..needed - 1];
        let refused = report(job, short).map_err(|refusal| (refusal.number(), refusal.place()));
        assert_eq!(rt; refused, Err((6, needed)));
        assert!(rt; short.iter().all(|byte| *byte == FILL));
        Ok(())
    }

    #[test]
    fn tables(rt: HostRuntime) -> Result<(), Fail> {
        check_report(
            &rt,
            b"prime=2\nexponent=3\nvalues=0,1,4,1\n",
            b"standing=4\nreduced=0,1,1,0\npowers=0,0,1,0\nmultiplications=1\n",
        )?;
        check_report(
            &rt,
            b"prime=13\nexponent=4\nvalues=0,1,8,27,64\n",
            b"standing=5\nreduced=0,1,3,1,0\npowers=0,0,0,1,0\nmultiplications=2\n",
        )?;
        check_report(
            &rt,
            b"prime=2\nexponent=1\nvalues=\n",
            b"standing=0\nreduced=\npowers=\nmultiplications=0\n",
        )?;
        check_report(
            &rt,
            b"prime=2\nexponent=16\nvalues=65535\n",
            b"standing=1\nreduced=65535\npowers=65535\nmultiplications=0\n",
        )
    }

    #[test]
    fn refused_values(rt: HostRuntime) -> Result<(), Fail> {
        check_report(
            &rt,
            b"prime=2\nexponent=3\nvalues=0,1,4,1,1\n",
            b"standing=4\nreduced=0,1,1,0\npowers=0,0,1,0\nmultiplications=1\nrefused=4\nat=4\n",
        )?;
        check_report(
            &rt,
            b"prime=2\nexponent=1\nvalues=0,1,0\n",
            b"standing=2\nreduced=0,1\npowers=0,1\nmultiplications=0\nrefused=3\nat=2\n",
        )?;
        check_report(
            &rt,
            b"prime=7\nexponent=1\nvalues=3,99999,6\n",
            b"standing=1\nreduced=3\npowers=3\nmultiplications=0\nrefused=2\nat=1\n",
        )
    }

    #[test]
    fn moduli_off_the_list(rt: HostRuntime) -> Result<(), Fail> {
        check_report(
            &rt,
            b"prime=4\nexponent=1\nvalues=0\n",
            b"refused=1\nat=0\n",
        )?;
        check_report(
            &rt,
            b"prime=2\nexponent=17\nvalues=\n",
            b"refused=1\nat=0\n",
        )?;
        check_report(
            &rt,
            b"prime=0\nexponent=0\nvalues=7\n",
            b"refused=1\nat=0\n",
        )
    }

    #[test]
    fn bad_first_lines(rt: HostRuntime) -> Result<(), Fail> {
        check_report(&rt, b"", b"refused=12\nat=1\n")?;
        check_report(&rt, b"prime=2", b"refused=12\nat=1\n")?;
        check_report(
            &rt,
            b"prime=02\nexponent=3\nvalues=\n",
            b"refused=12\nat=1\n",
        )?;
        check_report(
            &rt,
            b"prime=100000\nexponent=3\nvalues=\n",
            b"refused=12\nat=1\n",
        )?;
        check_report(&rt, b"prime=\nexponent=3\nvalues=\n", b"refused=12\nat=1\n")?;
        check_report(
            &rt,
            b"prime=2\r\nexponent=3\nvalues=\n",
            b"refused=12\nat=1\n",
        )?;
        check_report(
            &rt,
            b"exponent=3\nprime=2\nvalues=\n",
            b"refused=12\nat=1\n",
        )
    }

    #[test]
    fn bad_later_lines(rt: HostRuntime) -> Result<(), Fail> {
        check_report(
            &rt,
            b"prime=2\nexponent= 3\nvalues=\n",
            b"refused=12\nat=2\n",
        )?;
        check_report(&rt, b"prime=2\nexponent=3", b"refused=12\nat=2\n")?;
        check_report(
            &rt,
            b"prime=2\nexponent=3\nvalues=0,1",
            b"refused=12\nat=3\n",
        )?;
        check_report(
            &rt,
            b"prime=2\nexponent=3\nvalues=0,\n",
            b"refused=12\nat=3\n",
        )?;
        check_report(
            &rt,
            b"prime=2\nexponent=3\nvalues=,0\n",
            b"refused=12\nat=3\n",
        )?;
        check_report(
            &rt,
            b"prime=2\nexponent=3\nvalues=0,01\n",
            b"refused=12\nat=3\n",
        )?;
        check_report(
            &rt,
            b"prime=2\nexponent=3\nvalues=0,\xff\n",
            b"refused=12\nat=3\n",
        )?;
        check_report(
            &rt,
            b"prime=2\nexponent=3\nvalues=0\n\n",
            b"refused=12\nat=4\n",
        )?;
        check_report(
            &rt,
            b"prime=2\nexponent=3\nvalues=0\nx",
            b"refused=12\nat=4\n",
        )
    }

    // A job of 4,096 bytes: zeros modulo 2^16, and 10 as the last value.
    fn longest() -> [u8; LONGEST] {
        let mut job = [b','; LONGEST];
        job[0..27].copy_from_slice(b"prime=2\nexponent=16\nvalues=");
        for zero in job[27..4093].iter_mut().step_by(2) {
            *zero = b'0';
        }
        job[4093] = b'1';
        job[4094] = b'0';
        job[4095] = b'\n';
        job
    }

    #[test]
    fn longest_job(rt: HostRuntime) -> Result<(), Fail> {
        check_report(
            &rt,
            &longest(),
            b"standing=2033\nreduced=0,0,0,0,0,0,0,0,0,0,0,0,0,0,0,0,0,0\npowers=0,0,0,0,0,0,0,0,0,0,0,0,0,0,0,0,0,0\nmultiplications=0\nrefused=4\nat=2033\n",
        )
    }

    #[test]
    fn too_long(rt: HostRuntime) -> Result<(), Fail> {
        check_report(&rt, &[b'\n'; LONGEST + 1], b"refused=12\nat=0\n")
    }
}
