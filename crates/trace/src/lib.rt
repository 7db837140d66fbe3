// The records of a trace, cut from its bytes.
#![tactic(auto)]

pub mod laws;
pub mod reader;
pub mod record;

#[cfg(test)]
mod tests {
    use crate::reader::Records;
    use crate::record::Record;
    use refusal::Reason;

    // The leaf -3, a resolve on 3 of steps 1 and 3, a reduce of step 7, and the end.
    const TRACE: [u8; 36] = [
        8, 0, 1, 0, 253, 255, 255, 255, 16, 0, 2, 0, 3, 0, 0, 0, 1, 0, 0, 0, 3, 0, 0, 0, 8, 0, 3,
        0, 7, 0, 0, 0, 4, 0, 9, 0,
    ];

    fn refused(bytes: &[u8]) -> Option<Reason> {
        Records::new(bytes).next().err()
    }

    #[test]
    fn records_come_one_after_another(rt: HostRuntime) {
        let mut records = Records::new(&TRACE);
        let leaf = records.next();
        assert!(rt;
            matches!(leaf, Ok(Record::Leaf(bytes)) if bytes == [253, 255, 255, 255].as_slice())
        );
        assert_eq!(rt; records.place(), 8);
        let resolve = records.next();
        assert!(rt;
            matches!(
                resolve,
                Ok(Record::Resolve {
                    pivot: 3,
                    first: 1,
                    second: 3
                })
            )
        );
        let reduce = records.next();
        assert!(rt; matches!(reduce, Ok(Record::Reduce { parent: 7 })));
        assert_eq!(rt; records.place(), 32);
        assert!(rt; matches!(records.next(), Ok(Record::End)));
        assert_eq!(rt; records.next().err(), Some(Reason::CutShort));
        assert_eq!(rt; records.place(), 36);
    }

    #[test]
    fn what_is_no_record_is_refused(rt: HostRuntime) {
        assert_eq!(rt; refused(&[4, 0, 9]), Some(Reason::CutShort));
        assert_eq!(rt; refused(&[9, 0, 4, 0, 0, 0, 0, 0]), Some(Reason::CutShort));
        assert_eq!(rt; refused(&[3, 0, 4, 0]), Some(Reason::UnknownKind));
        assert_eq!(rt; refused(&[3, 0, 9, 0]), Some(Reason::WrongLength));
        assert_eq!(rt; refused(&[5, 0, 1, 0, 0]), Some(Reason::WrongLength));
        assert_eq!(rt;
            refused(&[8, 0, 2, 0, 0, 0, 0, 0]),
            Some(Reason::WrongLength)
        );
    }
}
