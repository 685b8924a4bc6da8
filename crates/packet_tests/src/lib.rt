// The edges of the packet format, as tables: each field's first and last allowed number, each kind, each length, each
// reader, and the place of the first bad statement.
#![tactic(auto)]

#[cfg(test)]
mod tests {
    use packet::{Kind, Parts, Reader, Slot, Statement, View, read_packet};
    use refusal::PacketFault;

    // The fields of a statement without its seal, and whether they are proper.
    struct Row(Kind, u8, u32, u32, u32, u64, bool);

    const LAST: u32 = 4_000_000_000;

    const FIELDS: [Row; 46] = [
        Row(Kind::Order, 0, 1, 1, 0, 0, true),
        Row(Kind::Order, 3, LAST, LAST, 0, u64::MAX, true),
        Row(Kind::Order, 4, 1, 1, 0, 0, false),
        Row(Kind::Order, 0, 0, 1, 0, 0, false),
        Row(Kind::Order, 0, LAST + 1, 1, 0, 0, false),
        Row(Kind::Order, 0, 1, 0, 0, 0, false),
        Row(Kind::Order, 0, 1, LAST + 1, 0, 0, false),
        Row(Kind::Order, 0, 2, 1, 1, 0, false),
        Row(Kind::Prepare, 1, 1, 1, 0, 9, true),
        Row(Kind::Prepare, 1, LAST, LAST, 0, 9, true),
        Row(Kind::Prepare, 1, LAST + 1, 1, 0, 9, false),
        Row(Kind::Prepare, 1, 1, LAST + 1, 0, 9, false),
        Row(Kind::Prepare, 1, 2, 1, 1, 9, false),
        Row(Kind::Commit, 2, 1, 1, 0, 9, true),
        Row(Kind::Commit, 2, LAST, LAST, 0, 9, true),
        Row(Kind::Commit, 2, 0, 1, 0, 9, false),
        Row(Kind::Commit, 2, 1, 0, 0, 9, false),
        Row(Kind::Commit, 2, 2, 1, 1, 9, false),
        Row(Kind::Report, 3, 1, 1, 0, 0, true),
        Row(Kind::Report, 3, 2, 1, 1, 9, true),
        Row(Kind::Report, 3, LAST, LAST, LAST - 1, 9, true),
        Row(Kind::Report, 3, 1, 1, 1, 9, false),
        Row(Kind::Report, 3, LAST, 1, LAST, 9, false),
        Row(Kind::Report, 3, 1, 1, 0, 9, false),
        Row(Kind::Report, 3, 0, 1, 0, 0, false),
        Row(Kind::Report, 3, 1, 0, 0, 0, false),
        Row(Kind::Wish, 0, 1, 0, 0, 0, true),
        Row(Kind::Wish, 3, LAST, 0, 0, 0, true),
        Row(Kind::Wish, 0, 0, 0, 0, 0, false),
        Row(Kind::Wish, 0, LAST + 1, 0, 0, 0, false),
        Row(Kind::Wish, 0, 1, 1, 0, 0, false),
        Row(Kind::Wish, 0, 2, 0, 1, 0, false),
        Row(Kind::Wish, 0, 1, 0, 0, 1, false),
        Row(Kind::Checkpoint, 0, 0, 16, 0, u64::MAX, true),
        Row(Kind::Checkpoint, 3, 0, LAST, 0, 0, true),
        Row(Kind::Checkpoint, 0, 0, 0, 0, 0, false),
        Row(Kind::Checkpoint, 0, 0, 15, 0, 0, false),
        Row(Kind::Checkpoint, 0, 0, LAST + 16, 0, 0, false),
        Row(Kind::Checkpoint, 0, 1, 16, 0, 0, false),
        Row(Kind::Checkpoint, 0, 0, 16, 1, 0, false),
        Row(Kind::Answer, 0, 0, 1, 0, u64::MAX, true),
        Row(Kind::Answer, 3, 0, LAST, 0, 0, true),
        Row(Kind::Answer, 0, 0, 0, 0, 0, false),
        Row(Kind::Answer, 0, 0, LAST + 1, 0, 0, false),
        Row(Kind::Answer, 0, 1, 1, 0, 0, false),
        Row(Kind::Answer, 0, 0, 1, 1, 0, false),
    ];

    #[test]
    fn each_field_has_its_range(rt: HostRuntime) {
        for &Row(kind, signer, view, slot, earlier, command, proper) in &FIELDS {
            let statement = Statement {
                kind,
                signer,
                view: View(view),
                slot: Slot(slot),
                earlier: View(earlier),
                command,
                seal: 1,
            };
            let expected = if proper {
                Ok(statement)
            } else {
                Err(PacketFault::Statement { place: 5 })
            };
            assert_eq!(rt; Statement::read(&statement.write(), 5), expected);
        }
    }

    #[test]
    fn an_order_has_these_bytes(rt: HostRuntime) {
        let order = Statement {
            kind: Kind::Order,
            signer: 2,
            view: View(0x01020304),
            slot: Slot(0x05060708),
            earlier: View(0x090A0B0C),
            command: 0x1112131415161718,
            seal: 0x2122232425262728,
        };
        let bytes = [
            0x4F, 2, 1, 2, 3, 4, 5, 6, 7, 8, 9, 10, 11, 12, 0x11, 0x12, 0x13, 0x14, 0x15, 0x16,
            0x17, 0x18, 0x21, 0x22, 0x23, 0x24, 0x25, 0x26, 0x27, 0x28,
        ];
        assert!(rt; order.write() == bytes);
        assert!(rt; order.body()[..] == bytes[0..22]);
    }

    // The first byte of each kind, whether a replica and a collector take it, and the lengths of its packets.
    struct Form(u8, bool, bool, &'static [usize]);

    static FORMS: [Form; 7] = [
        Form(0x4F, true, false, &[30, 120, 210, 300, 390]),
        Form(0x50, true, false, &[30]),
        Form(0x43, true, false, &[30, 90]),
        Form(0x52, false, false, &[30, 120]),
        Form(0x57, true, false, &[30]),
        Form(0x4B, true, false, &[30]),
        Form(0x41, false, true, &[30]),
    ];

    // The number of the refusal; 0, as the tables have it, where the packet is accepted.
    fn refused(reader: Reader, bytes: &[u8]) -> u8 {
        read_packet(reader, bytes)
            .err()
            .map_or(0, |fault| fault.refusal().number)
    }

    // After its first byte the packet is all zero, which no kind allows: a length that is allowed shows as 4.
    #[test]
    fn each_kind_has_its_lengths(rt: HostRuntime) {
        for &Form(byte, _, _, lengths) in &FORMS {
            let mut bytes = [0; 400];
            bytes[0] = byte;
            for n in 1..=400 {
                let expected = if lengths.contains(&n) { 4 } else { 3 };
                assert_eq!(rt; refused(Reader::Monitor, &bytes[..n]), expected);
            }
        }
    }

    // No packet has one byte: a kind that is taken shows as 3.
    #[test]
    fn each_reader_takes_its_kinds(rt: HostRuntime) {
        assert_eq!(rt; refused(Reader::Monitor, &[]), 2);
        for byte in 0..=255u8 {
            let form = FORMS.iter().find(|Form(first, _, _, _)| *first == byte);
            let readers = [
                (
                    Reader::Replica,
                    form.is_some_and(|Form(_, to_replica, _, _)| *to_replica),
                ),
                (
                    Reader::Collector,
                    form.is_some_and(|Form(_, _, to_collector, _)| *to_collector),
                ),
                (Reader::Monitor, form.is_some()),
            ];
            for (reader, takes) in readers {
                let expected = if takes { 3 } else { 2 };
                assert_eq!(rt; refused(reader, &[byte]), expected);
            }
        }
    }

    // The longest packet, of thirteen equal statements, and then with a signer that there is not in each from a place on.
    #[test]
    fn the_first_bad_statement_is_named(rt: HostRuntime) {
        let good = Statement {
            kind: Kind::Order,
            signer: 0,
            view: View(1),
            slot: Slot(1),
            earlier: View(0),
            command: 1,
            seal: 1,
        };
        let bad = Statement { signer: 4, ..good };
        let longest = [good.write(); 13];
        assert_eq!(rt; refused(Reader::Replica, longest.as_flattened()), 0);
        for place in 0..13u32 {
            let mut spoiled = longest;
            spoiled[place as usize..].fill(bad.write());
            let fault = read_packet(Reader::Replica, spoiled.as_flattened()).err();
            assert_eq!(rt; fault, Some(PacketFault::Statement { place }));
        }
    }

    // Pieces of one's own, of which the second is no statement.
    #[test]
    fn any_pieces_are_parts(rt: HostRuntime) {
        let wish = Statement {
            kind: Kind::Wish,
            signer: 3,
            view: View(2),
            slot: Slot(0),
            earlier: View(0),
            command: 0,
            seal: 9,
        };
        let pieces = [wish.write(), [0; 30], wish.write()];
        let parts = Parts::from(&pieces[..]);
        assert_eq!(rt; parts.count(), 3);
        let read = [Some(wish), None, Some(wish), None];
        for (place, expected) in read.into_iter().enumerate() {
            assert_eq!(rt; parts.statement(place), expected);
        }
        assert_eq!(rt; Parts::from(&pieces[0..0]).count(), 0);
    }
}
