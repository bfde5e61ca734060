//! The small texts, in groups. Each comment speaks of the texts that follow it.

/// RULES.md 6.2 to 6.5: lines, empty lines, stanzas and odd bytes.
pub const LINES: &[&[u8]] = &[
    // an empty file
    b"",
    // only line feeds
    b"\n",
    b"\n\n\n",
    // no line feed after the last line
    b"Package: map",
    // several empty lines, in front, between and behind
    b"\n\nPackage: map\n\n\n\nPackage: font\n\n",
    // no empty line between two stanzas
    b"Package: map\nPackage: font\n",
    // a line of blanks is not empty: after a read field
    b"Package: map\n \nPackage: font\n",
    // after a skipped field, where it continues the field, so that the stanza goes on
    b"Package: map\nSection: hall\n \nPackage: font\n",
    b"Package: map\nSection: hall\n \t \nDepends: map\n",
    // at the beginning of the file
    b" \n",
    b"\t\nPackage: map\n",
    // carriage returns: behind a name, alone, after a skipped field, and in what is skipped
    b"Package: map\r\n",
    b"\r\n",
    b"Package: map\nSection: hall\r\n\r\n",
    b"Package: map\nSection: hall\r\n \r\nDepends: map\n",
    // zero bytes and bytes above 127 in what is skipped
    b"Package: map\nSection: \x00\x80\xff, | :\n \xff\x00\nDepends: map\n",
    // and at the beginning of a line
    b"\x00\n",
    b"\xef\xbb\xbfPackage: map\n",
];

/// RULES.md 6.6 to 6.9: labels.
pub const LABELS: &[&[u8]] = &[
    // no blank behind the colon
    b"Package:map\n",
    // a blank in front of the colon
    b"Package : map\n",
    // no colon
    b"Package map\n",
    b"Package",
    b"Package: map\nSection\n",
    // the colon first
    b": map\n",
    b"Package: map\n:\n",
    // a digit or a minus first
    b"Package: map\n9Section: hall\n",
    b"Package: map\n-Section: hall\n",
    // digits and minus later
    b"Package: map\nS9-x-: hall\n",
    // other bytes in a label
    b"Package: map\nS_x: hall\n",
    b"Package: map\nS.x: hall\n",
    b"Package: map\nSection\x00: hall\n",
    b"Package: map\nSe\xc3\xa7tion: hall\n",
    b"Package: map\n[: hall\n",
    b"Package: map\n{: hall\n",
    b"Package: map\n@: hall\n",
    b"Package: map\n`: hall\n",
    // one letter, of either case
    b"Package: map\nx:\nX:\nz:\nZ:\na:\nA:\n",
    // labels that resemble those of read fields
    b"package: map\n",
    b"Package: map\npackage: x, y\nDEPENDS: globe\nconflicts: | |\nPackages: x\nDepend: y\nConflicts-: z\n",
    // a second colon belongs to the value
    b"Package:: map\n",
    b"Package: map\nDepends: map: font\n",
];

/// RULES.md 6.10: continuation lines.
pub const CONTINUATIONS: &[&[u8]] = &[
    // as the first line
    b" more\nPackage: map\n",
    // after a read field, with value and without
    b"Package: map\n more\n",
    b"Package: map\nDepends: font\n\tmore\n",
    b"Package: map\nConflicts:\n more\n",
    // after a skipped field and after another continuation
    b"Package: map\nSection: hall\n more\n\tmore: , |\n \nDepends: map\n",
    // after a read field that follows one
    b"Package: map\nSection:\n more\nDepends: map\n more\n",
    // after an empty line
    b"Package: map\n\n more\n",
    b"Package: map\nSection: hall\n\n more\n",
    b"Package: map\nSection: hall\n more\n\n more\n",
    b"Package: map\nSection: hall\n\n\n \n",
    // a field in a continuation is none
    b"Package: map\nSection: hall\n Package: font\n\tDepends: ,\n",
    // at the end of the file, without a line feed
    b"Package: map\nSection: hall\n more",
    b"Package: map\nSection: hall\n ",
    b"Package: map\nSection: hall",
];

/// RULES.md 6.8: fields where they may not stand.
pub const STRAYS: &[&[u8]] = &[
    // a stanza begins with another field
    b"Depends: map\n",
    b"Conflicts: map\nPackage: map\n",
    b"Section: hall\nPackage: map\n",
    b"Package: map\n\nDepends: map\n",
    b"Package: map\n\nSection: hall\nPackage: font\n",
    // a read field occurs again
    b"Package: map\nPackage: map\n",
    b"Package: map\nDepends: map\nDepends: font\n",
    b"Package: map\nDepends:\nDepends:\n",
    b"Package: map\nConflicts: \t\nSection: hall\nConflicts: map\n",
    b"Package: map\nDepends:\nConflicts:\nPackage: font\n",
    // a skipped field may occur again
    b"Package: map\nSection: hall\nSection: hall\n",
    // each stanza has its own
    b"Package: map\nDepends:\nConflicts:\n\nPackage: font\nConflicts:\nDepends:\n",
    // a fault of a line comes before one in its value
    b"Depends: ,\n",
    b"Package: map\nDepends: font\nDepends: ,\n",
    // and behind one in an earlier value
    b"Package: map\nDepends: x\nPackage: map\n",
    // a line that is no field at the beginning of a stanza
    b"Package: map\n\n Package: font\n",
    b"Depends map\n",
];

/// RULES.md 6.12, 6.23, 6.25: values of Package.
pub const PACKAGES: &[&[u8]] = &[
    // no value
    b"Package:\n",
    b"Package:",
    b"Package: \t \n",
    b"Package: \t ",
    // blanks on both sides
    b"Package:  \tmap\t \n",
    // a second name, good and bad
    b"Package: map loop\n",
    b"Package: map X\n",
    b"Package: map\tx\n",
    // the first name is bad, too
    b"Package: X map\n",
    b"Package: x,\n",
    // separators behind the name
    b"Package: map,\n",
    b"Package: map , loop\n",
    b"Package: map|loop\n",
    // and in front
    b"Package: , map\n",
    b"Package: |\n",
    b"Package:,\n",
    // a name that an earlier stanza has
    b"Package: map\n\nPackage: map\n",
    b"Package: map\n\nPackage: map,\n",
    b"Package: map\n\nPackage: map loop\n",
    b"Package: map\n\nPackage: map X\n",
    b"Package: map\n\nPackage: map\nSection\n",
    b"Package: a1\n\nPackage: b1\n\nPackage: c1\n\nPackage: b1\n\nPackage: a1\n",
    // other names
    b"Package: map\n\nPackage: mapp\n\nPackage: ma\n\nPackage: map.\n",
    b"Package: map\n\nPackage: Map\n",
    // a fault in front of it
    b"Package: map\nDepends: ,\n\nPackage: map\n",
];

/// RULES.md 6.11: good and bad names.
pub const NAMES: &[&[u8]] = &[
    // 1, 2, 64 and 65 bytes
    b"Package: x",
    b"Package: ab\n",
    b"Package: 0123456789abcdef0123456789abcdef0123456789abcdef0123456789abcdef\n",
    b"Package: 0123456789abcdef0123456789abcdef0123456789abcdef0123456789abcdefg\n",
    b"Package: map\nDepends: 0123456789abcdef0123456789abcdef0123456789abcdef0123456789abcdefg\n",
    // the first byte
    b"Package: +a\n",
    b"Package: -a\n",
    b"Package: .a\n",
    b"Package: Map\n",
    b"Package: 0+-.z9\n\nPackage: z+\n\nPackage: a-\n\nPackage: 9.\n",
    // later bytes
    b"Package: mAp\n",
    b"Package: m_p\n",
    b"Package: m/\n",
    b"Package: m:\n",
    b"Package: m`\n",
    b"Package: m{\n",
    b"Package: m*\n",
    b"Package: m\x00p\n",
    b"Package: m\xc3\xa4p\n",
    b"Package: map\xa0\n",
    b"Package: map\x0b\n",
    // a carriage return as a name of its own
    b"Package: map \r\n",
    b"Package: \r\n",
];

/// RULES.md 6.13: values of Depends.
pub const DEPENDS: &[&[u8]] = &[
    // nothing
    b"Package: map\nDepends:\n",
    b"Package: map\nDepends: \t \n",
    b"Package: map\nDepends:",
    // blanks and tabs wherever they may be
    b"Package: map\nDepends:map,map|map ,\tmap\t|\tmap \t\n",
    // a separator at the end
    b"Package: map\nDepends: font, \n",
    b"Package: map\nDepends: font,",
    b"Package: map\nDepends: font |\t\n",
    b"Package: map\nDepends: font | ",
    // a separator in front
    b"Package: map\nDepends: , font\n",
    b"Package: map\nDepends: | font\n",
    b"Package: map\nDepends:,\n",
    b"Package: map\nDepends: |",
    // two separators
    b"Package: map\nDepends: font,, map\n",
    b"Package: map\nDepends: font || map\n",
    b"Package: map\nDepends: font |, map\n",
    b"Package: map\nDepends: font, | map\n",
    // two names
    b"Package: map\nDepends: font map\n",
    b"Package: map\nDepends: font | map loop, x\n",
    b"Package: map\nDepends: map, font X\n",
    b"Package: map\nDepends: font (>= 2)\n",
    // bad names
    b"Package: map\nDepends: X font\n",
    b"Package: map\nDepends: font, x\n",
    b"Package: map\nDepends: font | x,\n",
    b"Package: map\nDepends: font(>=2)\n",
    b"Package: map\nDepends: font; map\n",
    b"Package: map\nDepends: font\r\n",
    b"Package: map\nDepends: font,\r\n",
    b"Package: map\nDepends: \r\n",
];

/// RULES.md 6.14: values of Conflicts.
pub const CONFLICTS: &[&[u8]] = &[
    // nothing
    b"Package: map\nConflicts:\n",
    b"Package: map\nConflicts:\t\t",
    // blanks and tabs wherever they may be
    b"Package: map\nConflicts:font\t,font , loop \n\nPackage: font\n\nPackage: loop\n",
    // bars
    b"Package: map\nConflicts: font, | loop\n",
    b"Package: map\nConflicts: font | loop\n",
    b"Package: map\nConflicts: | loop\n",
    b"Package: map\nConflicts: font,|\n",
    b"Package: map\nConflicts: ,|\n",
    b"Package: map\nConflicts: |,\n",
    // commas without a name
    b"Package: map\nConflicts: ,loop\n",
    b"Package: map\nConflicts: font,,loop\n",
    b"Package: map\nConflicts: font, \n",
    b"Package: map\nConflicts: font,  ",
    // two names
    b"Package: map\nConflicts: font loop\n",
    b"Package: map\nConflicts: font loop|\n",
    b"Package: map\nConflicts: font, loop X\n",
    // bad names
    b"Package: map\nConflicts: Font\n",
    b"Package: map\nConflicts: font, .\n",
    b"Package: map\nConflicts: font\r\n",
];

/// RULES.md 6.15 to 6.17: what the names mean.
pub const MEANINGS: &[&[u8]] = &[
    // earlier, own and later names, in clauses and in conflicts
    b"Package: aa\nDepends: aa, bb, cc\n\nPackage: bb\nDepends: cc|bb|aa\n\nPackage: cc\nDepends: aa | bb, cc\n",
    b"Package: aa\nConflicts: aa, cc\n\nPackage: bb\nConflicts: aa, bb\n\nPackage: cc\nConflicts: cc, bb\n",
    // unknown names: the clause stays, perhaps empty
    b"Package: map\nDepends: globe, map | globe, globe | sea\n",
    b"Package: map\nConflicts: globe, sea\n",
    // the own name alone
    b"Package: map\nDepends: map\nConflicts: map\n",
    // repetition
    b"Package: map\nDepends: font, font, map | map\n\nPackage: font\n",
    b"Package: map\nConflicts: font, font\n\nPackage: font\nConflicts: map, map\n",
    // a conflict from one side, lower and higher
    b"Package: map\nConflicts: font\n\nPackage: font\n",
    b"Package: map\n\nPackage: font\nConflicts: map\n",
    // clauses in the order of the file, conflicts before them or not
    b"Package: aa\nConflicts: bb\nDepends: cc, bb\n\nPackage: bb\nDepends: aa\nConflicts: cc\n\nPackage: cc\nDepends: bb, aa",
    // names that begin alike
    b"Package: font\nDepends: fon, font-, font\n\nPackage: font-\n\nPackage: fo\nConflicts: font, fon\n",
    // names that are labels
    b"Package: depends\nDepends: package\n\nPackage: package\nConflicts: depends\n",
    // a stanza with skipped fields everywhere
    b"Package: map\nSection: hall\n more\nDepends: font\nVersion: 1\nConflicts: loop\nNote: x\n\nPackage: loop\n",
    // the eight exhibits of 10.1
    b"Package: map\nDepends: timeline, font | font-lite\n\n\
      Package: timeline\nDepends: map\n\n\
      Package: font\n\n\
      Package: font-lite\n\n\
      Package: loop\nDepends: player\nConflicts: timeline\n\n\
      Package: player\nDepends: codec-a | codec-b\n\n\
      Package: codec-a\nConflicts: codec-b\n\n\
      Package: codec-b\n",
];

/// RULES.md 6.24: what may follow 512 clauses of one component.
pub const AFTER_CLAUSES: &[&[u8]] = &[
    b"\n",
    // a last clause that does not close well
    b" map\n",
    b" |\n",
    b",\n",
    // clause number 513
    b", map\n",
    b", globe",
    b", map | map\n",
    // with a fault inside
    b", x\n",
    b", map | x\n",
    b", map | \n",
    b", map |, map\n",
    b", map font\n",
    b", map Y,\n",
    b", | map\n",
    // with a fault behind its comma, or in a later line
    b", map, x\n",
    b", map,\n",
    b", map,, map\n",
    b", map, map map\n",
    b", map\nDepends: map\n",
    // in another stanza
    b"\n\nPackage: font\nDepends: \n",
    b"\n\nPackage: font\nDepends: map\n",
    b"\n\nPackage: font\nDepends: ,map\n",
    b"\n\nPackage: map\nDepends: map\n",
    // no clause number 513
    b"\nDepends: map\n",
    b"\nConflicts: map, font\n\nPackage: font\nConflicts: map\n",
];

/// RULES.md 6.24: what may follow 64 components with 8 clauses each.
pub const AFTER_SPREAD: &[&[u8]] = &[
    b"\nConflicts: c1, c2\n",
    b", c1 | c2",
    b" c1\n",
    b"\n\nPackage: c64\nDepends: c0\n",
];

/// RULES.md 6.20: what may follow 64 components.
pub const AFTER_COMPONENTS: &[&[u8]] = &[
    b"",
    b"\n\n\n\n",
    b"\nDepends: c64, c63 | c0\nConflicts: c0, c62\n",
    // a 65th component
    b"\n\nPackage: c64\n",
    b"\n\nPackage: c64,\n",
    b"\n\nPackage: c64 c65\n",
    // with a name that is taken
    b"\n\nPackage: c0\n",
    b"\n\nPackage: c7 c64\n",
    b"\n\nPackage: c63,\n",
    // with a bad name, or without one
    b"\n\nPackage: x\n",
    b"\n\nPackage:\n",
    b"\n\nPackage: ,\n",
    // with a bad first line
    b"\n\nDepends: c1\n",
    b"\n\nPackage c64\n",
    b"\n\n Package: c64\n",
];

/// RULES.md 6.1: how texts of 65,535 bytes and of one more begin, and the byte that fills them up.
pub const HEADS: &[(&[u8], &[u8])] = &[
    (b"Package: map\nSection: ", b"x"),
    (b"", b"\n"),
    (b"", b":"),
    (b"Package: ", b"x"),
    (b"Package:", b"\t"),
    (b"Package: map\nDepends: map", b" "),
    (b"Package: map\nDepends: map,", b" "),
    (b"Package: x\n", b"\n"),
];
