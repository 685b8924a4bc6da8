// SipHash-2-4 on its authors' vectors, the bench tag by hand, and the edges of sealing and opening.
#![tactic(auto)]

#[cfg(test)]
mod tests {
    use packet::{Kind, Reader, Slot, Statement, View};
    use refusal::SealerFault;
    use sealer::{BenchSealer, Sealer, SipSealer, open, open_proof, sign, siphash};
    use std::test::Fail;

    const KEY: [u8; 16] = [0, 1, 2, 3, 4, 5, 6, 7, 8, 9, 10, 11, 12, 13, 14, 15];

    const MESSAGE: [u8; 64] = [
        0, 1, 2, 3, 4, 5, 6, 7, 8, 9, 10, 11, 12, 13, 14, 15, 16, 17, 18, 19, 20, 21, 22, 23, 24,
        25, 26, 27, 28, 29, 30, 31, 32, 33, 34, 35, 36, 37, 38, 39, 40, 41, 42, 43, 44, 45, 46, 47,
        48, 49, 50, 51, 52, 53, 54, 55, 56, 57, 58, 59, 60, 61, 62, 63,
    ];

    // The authors' results for the key 00 01 .. 0f and the messages of 0 to 63 bytes 00 01 02 ..
    const VECTORS: [u64; 64] = [
        0x726fdb47dd0e0e31,
        0x74f839c593dc67fd,
        0x0d6c8009d9a94f5a,
        0x85676696d7fb7e2d,
        0xcf2794e0277187b7,
        0x18765564cd99a68d,
        0xcbc9466e58fee3ce,
        0xab0200f58b01d137,
        0x93f5f5799a932462,
        0x9e0082df0ba9e4b0,
        0x7a5dbbc594ddb9f3,
        0xf4b32f46226bada7,
        0x751e8fbc860ee5fb,
        0x14ea5627c0843d90,
        0xf723ca908e7af2ee,
        0xa129ca6149be45e5,
        0x3f2acc7f57c29bdb,
        0x699ae9f52cbe4794,
        0x4bc1b3f0968dd39c,
        0xbb6dc91da77961bd,
        0xbed65cf21aa2ee98,
        0xd0f2cbb02e3b67c7,
        0x93536795e3a33e88,
        0xa80c038ccd5ccec8,
        0xb8ad50c6f649af94,
        0xbce192de8a85b8ea,
        0x17d835b85bbb15f3,
        0x2f2e6163076bcfad,
        0xde4daaaca71dc9a5,
        0xa6a2506687956571,
        0xad87a3535c49ef28,
        0x32d892fad841c342,
        0x7127512f72f27cce,
        0xa7f32346f95978e3,
        0x12e0b01abb051238,
        0x15e034d40fa197ae,
        0x314dffbe0815a3b4,
        0x027990f029623981,
        0xcadcd4e59ef40c4d,
        0x9abfd8766a33735c,
        0x0e3ea96b5304a7d0,
        0xad0c42d6fc585992,
        0x187306c89bc215a9,
        0xd4a60abcf3792b95,
        0xf935451de4f21df2,
        0xa9538f0419755787,
        0xdb9acddff56ca510,
        0xd06c98cd5c0975eb,
        0xe612a3cb9ecba951,
        0xc766e62cfcadaf96,
        0xee64435a9752fe72,
        0xa192d576b245165a,
        0x0a8787bf8ecb74b2,
        0x81b3e73d20b49b6f,
        0x7fa8220ba3b2ecea,
        0x245731c13ca42499,
        0xb78dbfaf3a8d83bd,
        0xea1ad565322a1a0b,
        0x60e61c23a3795013,
        0x6606d7e446282b93,
        0x6ca4ecb15c5f91e1,
        0x9f626da15c9625f3,
        0xe51b38608ef25f57,
        0x958a324ceb064572,
    ];

    #[test]
    fn siphash_gives_the_published_results(rt: HostRuntime) {
        for (n, result) in VECTORS.into_iter().enumerate() {
            assert_eq!(rt; siphash(&KEY, &MESSAGE[..n]), result);
        }
    }

    // 31 to the power of k, for the byte 1 with k zero bytes behind it; the sum of two such for two bytes.
    #[test]
    fn a_bench_tag_can_be_followed_by_hand(rt: HostRuntime) -> Result<(), Fail> {
        let mut bench = BenchSealer::new(3)?;
        let mut body = [0; 22];
        assert_eq!(rt; bench.seal(&body), 0);
        body[21] = 7;
        assert_eq!(rt; bench.seal(&body), 7);
        body[20] = 1;
        assert_eq!(rt; bench.seal(&body), 38);
        body[0] = 255;
        // 255 * 31^21 + 38, modulo 2^64
        assert_eq!(rt; bench.seal(&body), 18235923881690195079);
        Ok(())
    }

    const KEYS: [[u8; 16]; 4] = [[1; 16], [2; 16], [3; 16], [4; 16]];

    #[test]
    fn a_sealer_has_one_of_four_numbers(rt: HostRuntime) {
        for number in 0..=255u8 {
            assert_eq!(rt; SipSealer::new(number, KEYS).is_ok(), number < 4);
            assert_eq!(rt; BenchSealer::new(number).is_ok(), number < 4);
        }
    }

    #[test]
    fn a_seal_is_genuine_under_one_number_only(rt: HostRuntime) -> Result<(), Fail> {
        let mut second = SipSealer::new(1, KEYS)?;
        let client = SipSealer::new(0, KEYS)?;
        let body = [9; 22];
        let tag = second.seal(&body);
        for signer in 0..=255u8 {
            assert_eq!(rt; client.check(signer, &body, tag), signer == 1);
        }
        assert!(rt; !client.check(1, &[8; 22], tag));
        assert!(rt; !client.check(1, &body, tag ^ 1));
        Ok(())
    }

    // Three equal commits in one packet, and then under another seal in each from a place on.
    #[test]
    fn the_first_bad_seal_is_named(rt: HostRuntime) -> Result<(), Fail> {
        let commit = Statement {
            kind: Kind::Commit,
            signer: 0,
            view: View(1),
            slot: Slot(1),
            earlier: View(0),
            command: 1,
            seal: 0,
        };
        let mut bench = BenchSealer::new(2)?;
        let good = sign(&mut bench, commit);
        let bad = Statement {
            seal: good.seal ^ 1,
            ..good
        };
        let certificate = [good.write(); 3];
        assert!(rt; open(&bench, Reader::Replica, certificate.as_flattened()).is_ok());
        for place in 0..3u32 {
            let mut spoiled = certificate;
            spoiled[place as usize..].fill(bad.write());
            let fault = open(&bench, Reader::Replica, spoiled.as_flattened()).err();
            assert_eq!(rt; fault, Some(SealerFault::Seal { place }));
        }
        Ok(())
    }

    // An order with twelve commits behind it, and the twelve alone.
    #[test]
    fn the_longest_are_opened_whole(rt: HostRuntime) -> Result<(), Fail> {
        let order = Statement {
            kind: Kind::Order,
            signer: 0,
            view: View(1),
            slot: Slot(1),
            earlier: View(0),
            command: 1,
            seal: 0,
        };
        let mut bench = BenchSealer::new(2)?;
        let commit = Statement {
            kind: Kind::Commit,
            ..order
        };
        let mut packet = [sign(&mut bench, commit).write(); 13];
        packet[0] = sign(&mut bench, order).write();
        let opened = open(&bench, Reader::Replica, packet.as_flattened()).ok();
        assert_eq!(rt; opened.map(|packet| packet.parts.count()), Some(13));
        let proof = open_proof(&bench, packet[1..].as_flattened()).ok();
        assert_eq!(rt; proof.map(|parts| parts.count()), Some(12));
        Ok(())
    }
}
