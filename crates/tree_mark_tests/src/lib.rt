//! Trees and marks at the edges of the rules. There is nothing here but tests.
#![tactic(auto)]

#[cfg(test)]
mod trees {
    use std::test::Fail;
    use tree::{Builder, Misplaced, NODES, Node, Tree, print};

    fn file(parent: u8, length: u16) -> Node {
        Node::File {
            parent,
            length,
            print: 7,
        }
    }

    // A directory in itself, and a file in it.
    fn two_nodes() -> Result<Builder, Fail> {
        let mut builder = Builder::new();
        builder.lay(Node::Directory { parent: 0 })?;
        let second = Node::File {
            parent: 0,
            length: 1,
            print: 1,
        };
        builder.lay(second)?;
        Ok(builder)
    }

    #[test]
    fn first_node(rt: HostRuntime) {
        let wrong = [
            Node::Absent,
            Node::Directory { parent: 1 },
            Node::Directory { parent: 255 },
            Node::File {
                parent: 0,
                length: 0,
                print: 0,
            },
        ];
        let mut builder = Builder::new();
        for node in wrong.iter() {
            assert!(rt; builder.lay(*node) == Err(Misplaced));
            assert_eq!(rt; builder.laid(), 0);
        }
        assert!(rt; builder.lay(Node::Directory { parent: 0 }) == Ok(()));
        assert_eq!(rt; builder.laid(), 1);
    }

    #[test]
    fn third_node(rt: HostRuntime) -> Result<(), Fail> {
        let placed = [
            Node::Directory { parent: 0 },
            file(0, 0),
            file(0, 511),
            file(0, 512),
        ];
        for node in placed.iter() {
            let mut builder = two_nodes()?;
            assert!(rt; builder.lay(*node) == Ok(()));
            assert_eq!(rt; builder.laid(), 3);
        }
        Ok(())
    }

    #[test]
    fn third_node_misplaced(rt: HostRuntime) -> Result<(), Fail> {
        let misplaced = [
            Node::Directory { parent: 1 },
            Node::Directory { parent: 2 },
            Node::Directory { parent: 3 },
            Node::Directory { parent: 15 },
            Node::Directory { parent: 16 },
            Node::Directory { parent: 255 },
            file(0, 513),
            file(0, 65535),
            file(1, 1),
            file(2, 1),
            file(3, 1),
            file(255, 1),
        ];
        for node in misplaced.iter() {
            let mut builder = two_nodes()?;
            assert!(rt; builder.lay(*node) == Err(Misplaced));
            assert_eq!(rt; builder.laid(), 2);
        }
        Ok(())
    }

    // Lays `n` absent nodes.
    fn lay_absent(builder: &mut Builder, n: usize) -> Result<(), Fail> {
        for _ in 0..n {
            builder.lay(Node::Absent)?;
        }
        Ok(())
    }

    #[test]
    fn an_absent_parent(rt: HostRuntime) -> Result<(), Fail> {
        let mut builder = two_nodes()?;
        lay_absent(&mut builder, 1)?;
        assert!(rt; builder.lay(Node::Directory { parent: 2 }) == Err(Misplaced));
        assert!(rt; builder.lay(Node::Directory { parent: 0 }) == Ok(()));
        assert!(rt; builder.lay(Node::Directory { parent: 3 }) == Ok(()));
        assert_eq!(rt; builder.laid(), 5);
        Ok(())
    }

    #[test]
    fn sixteen_nodes(rt: HostRuntime) -> Result<(), Fail> {
        assert!(rt; Builder::new().finish().is_none());
        let mut builder = two_nodes()?;
        lay_absent(&mut builder, 13)?;
        assert_eq!(rt; builder.laid(), 15);
        assert!(rt; builder.finish().is_none());
        assert!(rt; builder.lay(Node::Directory { parent: 0 }) == Ok(()));
        assert!(rt; builder.lay(Node::Absent) == Err(Misplaced));
        assert!(rt; builder.lay(Node::Directory { parent: 0 }) == Err(Misplaced));
        assert_eq!(rt; builder.laid(), 16);
        let tree = builder.finish().ok_or_else(|| Fail::new("no tree"))?;
        assert!(rt; tree.node(15) == Node::Directory { parent: 0 });
        assert!(rt; tree.node(16) == Node::Absent);
        assert!(rt; tree.node(usize::MAX) == Node::Absent);
        assert_eq!(rt; tree.parent(1), Some(0));
        assert_eq!(rt; tree.parent(2), None);
        Ok(())
    }

    #[test]
    fn each_below_the_one_before(rt: HostRuntime) -> Result<(), Fail> {
        let mut builder = Builder::new();
        assert!(rt; builder.lay(Node::Directory { parent: 0 }) == Ok(()));
        for parent in 0..15u8 {
            assert!(rt; builder.lay(Node::Directory { parent }) == Ok(()));
        }
        let tree = builder.finish().ok_or_else(|| Fail::new("no tree"))?;
        assert_eq!(rt; tree.parent(15), Some(14));
        Ok(())
    }

    #[test]
    fn a_bare_tree(rt: HostRuntime) {
        let tree = Tree::bare();
        assert!(rt; tree.node(0) == Node::Directory { parent: 0 });
        for k in 1..NODES {
            assert!(rt; tree.node(k) == Node::Absent);
        }
    }

    #[test]
    fn prints(rt: HostRuntime) {
        assert_eq!(rt; print(b""), 0);
        assert_eq!(rt; print(&[1, 2]), 34);
        assert_eq!(rt; print(&[2, 1]), 65);
        assert_eq!(rt; print(&[0; 512]), 0);
        assert_eq!(rt; print(&[1, 0, 0, 0, 0, 0, 0, 0]), 8);
        assert_eq!(rt; print(b"Yibhoqaze"), 0x572a_7006);
        assert_eq!(rt; print(&[255; 512]), 0x87ff_ffff);
    }
}

#[cfg(test)]
mod marks {
    use mark::{Mark, Refusal, read_mark};

    // Texts that no mark spells, by the letter that they look like.
    const NO_FILES: [&str; 43] = [
        "f 1 0 513 00000000",
        "f 1 0 999 00000000",
        "f 1 0 1000 00000000",
        "f 1 1 0 00000000",
        "f 1 2 0 00000000",
        "f 0 0 0 00000000",
        "f 16 0 0 00000000",
        "f 1 0 0 0000000",
        "f 1 0 0 000000000",
        "f 1 0 0 0000000A",
        "f 1 0 0 ABCDEF01",
        "f 1 0 0 0000000g",
        "f 1 0 0 0x000000",
        "f 1 0 0",
        "f 1 0 0 ",
        "f 1 0",
        "f 1",
        "f",
        "f ",
        "f 1 0 00000000",
        "f 01 0 0 00000000",
        "f 1 00 0 00000000",
        "f 1 0 00 00000000",
        "f 1 0 0512 00000000",
        "f  1 0 0 00000000",
        "f 1  0 0 00000000",
        "f 1 0  0 00000000",
        "f 1 0 0  00000000",
        "f 1 0 0 00000000 ",
        "f 1 0 0 00000000 0",
        "f 1 0 0\t00000000",
        "f1 0 0 00000000",
        " f 1 0 0 00000000",
        "F 1 0 0 00000000",
        "f 1 0 +1 00000000",
        "f 1 0 -0 00000000",
        "f 1 0 4294967297 00000000",
        "f 4294967297 0 0 00000000",
        "f 2 18446744073709551617 0 00000000",
        "f 1 0 65536 00000000",
        "f 257 0 0 00000000",
        "f 1 0 0 00000000\n",
        "f 1 0 0 00000000\0",
    ];

    const NO_DIRECTORIES: [&str; 26] = [
        "d 0 0",
        "d 16 0",
        "d 16 15",
        "d 15 15",
        "d 1 1",
        "d 1 2",
        "d 01 0",
        "d 1 00",
        "d 1",
        "d 1 ",
        "d 1 0 ",
        "d 1 0 0",
        "d  1 0",
        "d 1  0",
        "d",
        "d ",
        "d1 0",
        "D 1 0",
        "d +1 0",
        "d 1 +0",
        "d 1 -0",
        "d 1 4294967296",
        "d 18446744073709551617 0",
        "d 1 256",
        "d 2 0x1",
        "d 1,0",
    ];

    const NO_ABSENTS: [&str; 23] = [
        "x 0",
        "x 16",
        "x 100",
        "x 01",
        "x 001",
        "x",
        "x ",
        "x  1",
        "x 1 ",
        "x 1 0",
        "x +1",
        "x -1",
        "x 1.",
        "x a",
        "X 1",
        "x1",
        "x 4294967297",
        "x 18446744073709551617",
        "x 257",
        "x 65537",
        "x 00000000000000000001",
        "\tx 1",
        "x\t1",
    ];

    const NO_SYNCS: [&str; 13] = [
        "s 0",
        "s 16",
        "s 01",
        "s",
        "s ",
        "s  1",
        "s 1 ",
        "s 1 1",
        "s +1",
        "S 1",
        "s 4294967297",
        "s 18446744073709551617",
        "s 258",
    ];

    const OTHERS: [&str; 22] = [
        "",
        " ",
        "dm-log-writes-en",
        "dm-log-writes-end ",
        "dm-log-writes-ends",
        "dm-log-writes-end\0",
        "Dm-log-writes-end",
        "m-log-writes-end",
        "dm-log-writes-End",
        "dm-log-writes_end",
        " #",
        " dm-log-writes-end",
        "a 1",
        "g 1 0",
        "e",
        "1",
        "0",
        "\0",
        "y 1",
        "t 1",
        "c 1 0",
        "w 1",
    ];

    fn file(node: u8, parent: u8, length: u16, print: u32) -> Mark {
        Mark::File {
            node,
            parent,
            length,
            print,
        }
    }

    fn directory(node: u8, parent: u8) -> Mark {
        Mark::Directory { node, parent }
    }

    #[test]
    fn marks_spelled(rt: HostRuntime) {
        let cases = [
            ("f 1 0 0 00000000", file(1, 0, 0, 0)),
            ("f 15 14 512 ffffffff", file(15, 14, 512, 0xffff_ffff)),
            ("f 9 8 511 0123abcd", file(9, 8, 511, 0x0123_abcd)),
            ("f 2 1 10 80000000", file(2, 1, 10, 0x8000_0000)),
            ("d 1 0", directory(1, 0)),
            ("d 15 0", directory(15, 0)),
            ("d 15 14", directory(15, 14)),
            ("x 1", Mark::Absent { node: 1 }),
            ("x 15", Mark::Absent { node: 15 }),
            ("s 1", Mark::Sync { node: 1 }),
            ("s 10", Mark::Sync { node: 10 }),
            ("s 15", Mark::Sync { node: 15 }),
            ("#", Mark::Comment),
            ("# ", Mark::Comment),
            ("#x", Mark::Comment),
            ("# x 1", Mark::Comment),
            ("##", Mark::Comment),
            ("# dm-log-writes-end", Mark::Comment),
            ("dm-log-writes-end", Mark::Comment),
        ];
        for (text, mark) in cases.iter() {
            assert!(rt; read_mark(text.as_bytes()) == Ok(*mark));
        }
    }

    #[test]
    fn a_comment_of_every_byte(rt: HostRuntime) {
        for b in 0..=255u8 {
            assert!(rt; read_mark(&[b'#', b]) == Ok(Mark::Comment));
            assert_eq!(rt; read_mark(&[b]).is_ok(), b == b'#');
        }
    }

    // Whether no mark spells any of the texts.
    fn all_declined(texts: &[&str]) -> bool {
        texts
            .iter()
            .all(|text| read_mark(text.as_bytes()) == Err(Refusal::NoMark))
    }

    #[test]
    fn no_file(rt: HostRuntime) {
        assert!(rt; all_declined(&NO_FILES));
    }

    #[test]
    fn no_directory(rt: HostRuntime) {
        assert!(rt; all_declined(&NO_DIRECTORIES));
    }

    #[test]
    fn no_absent_node(rt: HostRuntime) {
        assert!(rt; all_declined(&NO_ABSENTS));
    }

    #[test]
    fn no_sync(rt: HostRuntime) {
        assert!(rt; all_declined(&NO_SYNCS));
    }

    #[test]
    fn no_mark_at_all(rt: HostRuntime) {
        assert!(rt; all_declined(&OTHERS));
    }

    #[test]
    fn number_of_the_refusal(rt: HostRuntime) {
        assert_eq!(rt; Refusal::NoMark.code(), 10);
    }
}
