// Runs of the turn table on examples: what it prints, and the worked listing by the code itself.
#![tactic(auto)]

#[cfg(test)]
mod tests {
    use orders::limit::Limit;
    use std::test::Fail;
    use turns::fault::{AdmissionFault, DismissalFault};
    use turns::table::TurnTable;

    // Admits heads 0, 1, .. with these limits.
    fn with_limits(limits: &[u8]) -> Result<TurnTable, Fail> {
        let mut table = TurnTable::new();
        for (number, value) in limits.iter().enumerate() {
            let limit = Limit::new(*value).ok_or_else(|| Fail::new("not a limit"))?;
            table.admit(u8::try_from(number)?, limit)?;
        }
        Ok(table)
    }

    #[test]
    fn faults_print_number_and_sentence(rt: HostRuntime) -> Result<(), Fail> {
        let heap = rt.alloc();
        let over = format!(in heap;
            "{}, {}",
            AdmissionFault::NumberOver13,
            DismissalFault::NumberOver13
        )?;
        assert_eq!(rt;
            over.as_str(),
            "12: head number over 13, 12: head number over 13"
        );
        let admission = format!(in heap;
            "{}, {}",
            AdmissionFault::AdmittedAlready,
            AdmissionFault::Outnumbered
        )?;
        assert_eq!(rt;
            admission.as_str(),
            "13: head admitted already, 15: heads would outnumber a limit"
        );
        let dismissal = format!(in heap; "{}", DismissalFault::NotAdmitted)?;
        assert_eq!(rt; dismissal.as_str(), "16: head not admitted");
        Ok(())
    }

    #[test]
    fn three_heads_take_turns(rt: HostRuntime) -> Result<(), Fail> {
        let mut table = with_limits(&[3, 3, 3])?;
        let wishes = [0, 0, 1, 2, 1];
        let served = [0, 1, 2, 0, 1];
        for (wish, head) in wishes.iter().zip(served) {
            assert_eq!(rt; table.serve(*wish), Some(head));
        }
        Ok(())
    }
}
