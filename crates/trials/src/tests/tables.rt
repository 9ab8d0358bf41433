// The corridor and other small networks, damaged in every way that a question asks about.
use crate::tests::{Change, Whole};

// Two junctions, three links, two turns, one limit, and a plan of two rows.
pub const CORRIDOR: &str =
    "signals 2 2 2 links 3 a 0 1 200 60 20 1 b 1 2 100 50 0 1 c 0 1 200 40 10 2 turns 2 1 2 500 1000 3 2 250 1000 limits 1 50 2 1 1 3 1 start 3 40 25 10 rows 2 1 1 2 2";

// Other numbers.
pub const WORKED: [Change; 10] = [
    // nothing is changed
    Change {
        old: "rows 2",
        new: "rows 2",
        told: "shelved 2",
    },
    // bound 49
    Change {
        old: "1 50 2",
        new: "1 49 2",
        told: "refused 13 0 1",
    },
    // start of a 39
    Change {
        old: "3 40 25",
        new: "3 39 25",
        told: "refused 16 2 1",
    },
    // start of b 24
    Change {
        old: "40 25 10",
        new: "40 24 10",
        told: "refused 16 2 2",
    },
    // top of b 45
    Change {
        old: "b 1 2 100",
        new: "b 1 2 45",
        told: "shelved 2",
    },
    // top of b 44
    Change {
        old: "b 1 2 100",
        new: "b 1 2 44",
        told: "refused 14 0 1",
    },
    // top of c 20
    Change {
        old: "c 0 1 200",
        new: "c 0 1 20",
        told: "shelved 2",
    },
    // top of c 19
    Change {
        old: "c 0 1 200",
        new: "c 0 1 19",
        told: "refused 15 0 3",
    },
    // the second of two limits is broken
    Change {
        old: "limits 1 50 2 1 1 3 1",
        new: "limits 2 50 2 1 1 3 1 24 1 2 1",
        told: "refused 13 0 2",
    },
    // both are broken
    Change {
        old: "limits 1 50 2 1 1 3 1",
        new: "limits 2 49 2 1 1 3 1 24 1 2 1",
        told: "refused 13 0 1",
    },
];

// Words that are missing, or not what is due.
pub const WORDS: [Change; 21] = [
    // a bad byte in a word
    Change {
        old: "links",
        new: "li\x07ks",
        told: "refused 2 16 0",
    },
    // a bad byte at the end of the model
    Change {
        old: "3 1 start",
        new: "3 1\x7f start",
        told: "refused 2 130 0",
    },
    // a bad byte at the end
    Change {
        old: "2 1 1 2 2",
        new: "2 1 1 2 2\x07",
        told: "refused 2 32 0",
    },
    // a bad byte after a separator at the end
    Change {
        old: "2 1 1 2 2",
        new: "2 1 1 2 2 \x07",
        told: "shelved 2",
    },
    // line feeds between words
    Change {
        old: "links 3",
        new: "links\n\n3",
        told: "shelved 2",
    },
    // a tab
    Change {
        old: "links 3",
        new: "links\t3",
        told: "refused 2 19 0",
    },
    // a mode missing
    Change {
        old: "2 1 1 2 2",
        new: "2 1 1 2",
        told: "refused 3 30 0",
    },
    // the plan missing
    Change {
        old: " start 3 40 25 10 rows 2 1 1 2 2",
        new: "",
        told: "refused 3 0 0",
    },
    // the first word of a linear sheet
    Change {
        old: "signals",
        new: "modes",
        told: "refused 4 8 0",
    },
    // another first word
    Change {
        old: "signals",
        new: "places",
        told: "refused 4 0 0",
    },
    // a number for a section word
    Change {
        old: "links",
        new: "7",
        told: "refused 4 14 0",
    },
    // links misspelt
    Change {
        old: "links",
        new: "link",
        told: "refused 4 14 0",
    },
    // turns misspelt
    Change {
        old: "turns",
        new: "turn",
        told: "refused 4 75 0",
    },
    // limits misspelt
    Change {
        old: "limits",
        new: "limit",
        told: "refused 4 109 0",
    },
    // start misspelt
    Change {
        old: "start",
        new: "Start",
        told: "refused 4 1 0",
    },
    // rows misspelt
    Change {
        old: "rows",
        new: "rowss",
        told: "refused 4 18 0",
    },
    // a leading zero
    Change {
        old: "200 60",
        new: "0200 60",
        told: "refused 5 28 0",
    },
    // two zeros
    Change {
        old: "b 1 2 100 50 0",
        new: "b 1 2 100 50 00",
        told: "refused 5 53 0",
    },
    // ten digits
    Change {
        old: "1 50 2",
        new: "1 1000000000 2",
        told: "refused 5 118 0",
    },
    // a sign
    Change {
        old: "200 60",
        new: "+200 60",
        told: "refused 5 28 0",
    },
    // a point
    Change {
        old: "200 60",
        new: "200.0 60",
        told: "refused 5 28 0",
    },
];

// Numbers, names and rows out of range.
pub const RANGES: [Change; 41] = [
    // no signal
    Change {
        old: "signals 2 2 2",
        new: "signals 0",
        told: "refused 6 8 0",
    },
    // 33 signals
    Change {
        old: "signals 2",
        new: "signals 33",
        told: "refused 6 8 0",
    },
    // no phase
    Change {
        old: "2 2 2 links",
        new: "2 2 0 links",
        told: "refused 6 12 0",
    },
    // 9 phases
    Change {
        old: "2 2 2 links",
        new: "2 9 2 links",
        told: "refused 6 10 0",
    },
    // no link
    Change {
        old: "links 3",
        new: "links 0",
        told: "refused 6 20 0",
    },
    // 65 links
    Change {
        old: "links 3",
        new: "links 65",
        told: "refused 6 20 0",
    },
    // a name of 9 bytes
    Change {
        old: " a 0",
        new: " abcdefghi 0",
        told: "refused 6 22 0",
    },
    // a name of 8 bytes
    Change {
        old: " a 0",
        new: " abcdefgh 0",
        told: "shelved 2",
    },
    // a number for a name
    Change {
        old: " a 0",
        new: " 007 0",
        told: "shelved 2",
    },
    // tail 3
    Change {
        old: "a 0 1",
        new: "a 3 1",
        told: "refused 6 24 0",
    },
    // head 0
    Change {
        old: "a 0 1",
        new: "a 0 0",
        told: "refused 6 26 0",
    },
    // head 3
    Change {
        old: "a 0 1",
        new: "a 0 3",
        told: "refused 6 26 0",
    },
    // top 0
    Change {
        old: "200 60 20",
        new: "0 60 20",
        told: "refused 6 28 0",
    },
    // top 100001
    Change {
        old: "200 60 20",
        new: "100001 60 20",
        told: "refused 6 28 0",
    },
    // flow 100001
    Change {
        old: "60 20 1",
        new: "100001 20 1",
        told: "refused 6 32 0",
    },
    // load above the top
    Change {
        old: "60 20 1",
        new: "60 201 1",
        told: "refused 6 35 0",
    },
    // mask 256
    Change {
        old: "60 20 1",
        new: "60 20 256",
        told: "refused 6 38 0",
    },
    // 257 turns
    Change {
        old: "turns 2",
        new: "turns 257",
        told: "refused 6 81 0",
    },
    // from 0
    Change {
        old: "2 1 2 500",
        new: "2 0 2 500",
        told: "refused 6 83 0",
    },
    // from 4
    Change {
        old: "2 1 2 500",
        new: "2 4 2 500",
        told: "refused 6 83 0",
    },
    // to 0
    Change {
        old: "2 1 2 500",
        new: "2 1 0 500",
        told: "refused 6 85 0",
    },
    // to 4
    Change {
        old: "2 1 2 500",
        new: "2 1 4 500",
        told: "refused 6 85 0",
    },
    // share 0
    Change {
        old: "500 1000",
        new: "0 1000",
        told: "refused 6 87 0",
    },
    // share 1001
    Change {
        old: "500 1000",
        new: "1001 1000",
        told: "refused 6 87 0",
    },
    // supply 0
    Change {
        old: "500 1000",
        new: "500 0",
        told: "refused 6 91 0",
    },
    // supply 1001
    Change {
        old: "500 1000",
        new: "500 1001",
        told: "refused 6 91 0",
    },
    // 33 limits
    Change {
        old: "limits 1",
        new: "limits 33",
        told: "refused 6 116 0",
    },
    // no term
    Change {
        old: "1 50 2",
        new: "1 50 0",
        told: "refused 6 121 0",
    },
    // 9 terms
    Change {
        old: "1 50 2",
        new: "1 50 9",
        told: "refused 6 121 0",
    },
    // place 0
    Change {
        old: "2 1 1 3 1",
        new: "2 0 1 3 1",
        told: "refused 6 123 0",
    },
    // place 4
    Change {
        old: "2 1 1 3 1",
        new: "2 1 1 4 1",
        told: "refused 6 127 0",
    },
    // weight 0
    Change {
        old: "2 1 1 3 1",
        new: "2 1 1 3 0",
        told: "refused 6 129 0",
    },
    // weight 1001
    Change {
        old: "2 1 1 3 1",
        new: "2 1 1001 3 1",
        told: "refused 6 125 0",
    },
    // a start of 2 places
    Change {
        old: "start 3",
        new: "start 2",
        told: "refused 6 7 0",
    },
    // a start of 4 places
    Change {
        old: "start 3",
        new: "start 4",
        told: "refused 6 7 0",
    },
    // a start above the top
    Change {
        old: "40 25 10",
        new: "40 101 10",
        told: "refused 6 12 0",
    },
    // no row
    Change {
        old: "rows 2",
        new: "rows 0",
        told: "refused 6 23 0",
    },
    // 65 rows
    Change {
        old: "rows 2",
        new: "rows 65",
        told: "refused 6 23 0",
    },
    // mode 9
    Change {
        old: "rows 2 1",
        new: "rows 2 9",
        told: "refused 6 25 0",
    },
    // an illegal row by its last mode
    Change {
        old: "2 1 1 2 2",
        new: "2 1 3 2 2",
        told: "refused 6 27 0",
    },
    // an illegal row by its first mode
    Change {
        old: "2 1 1 2 2",
        new: "2 3 1 2 2",
        told: "refused 6 27 0",
    },
];

// What is asked after a record.
pub const RECORDS: [Change; 8] = [
    // tail is head
    Change {
        old: "b 1 2",
        new: "b 2 2",
        told: "refused 7 40 0",
    },
    // a mask beyond the phases
    Change {
        old: "40 10 2",
        new: "40 10 4",
        told: "refused 7 57 0",
    },
    // the words of the record come before its question
    Change {
        old: "b 1 2 100",
        new: "b 2 2 x",
        told: "refused 5 46 0",
    },
    // a turn that does not go on
    Change {
        old: "2 1 2 500",
        new: "2 2 3 500",
        told: "refused 8 83 0",
    },
    // a pair given twice
    Change {
        old: "3 2 250",
        new: "1 2 250",
        told: "refused 8 96 0",
    },
    // that does not go on, and too large a share
    Change {
        old: "2 1 2 500",
        new: "2 2 3 1001",
        told: "refused 6 87 0",
    },
    // shares of 1000
    Change {
        old: "turns 2 1 2 500 1000",
        new: "turns 2 1 2 1000 1000",
        told: "refused 16 2 2",
    },
    // a place named twice
    Change {
        old: "2 1 1 3 1",
        new: "2 1 1 1 1",
        told: "refused 10 118 0",
    },
];

// Sheets of their own.
pub const WHOLE: [Whole; 16] = [
    // nothing
    Whole {
        sheet: "",
        told: "refused 3 0 0",
    },
    // separators alone
    Whole {
        sheet: " \n ",
        told: "refused 3 3 0",
    },
    // shares of 1000
    Whole {
        sheet: "signals 2 2 2 links 4 a 0 1 200 60 20 1 b 1 2 100 50 0 1 c 0 1 200 40 10 2 d 1 2 100 50 0 1 turns 2 1 2 500 500 1 4 500 500 limits 0 start 4 0 0 0 0 rows 1 0 0",
        told: "refused 16 1 1",
    },
    // shares of 1001
    Whole {
        sheet: "signals 2 2 2 links 4 a 0 1 200 60 20 1 b 1 2 100 50 0 1 c 0 1 200 40 10 2 d 1 2 100 50 0 1 turns 2 1 2 500 500 1 4 501 500 limits 0 start 4 0 0 0 0 rows 1 0 0",
        told: "refused 9 112 0",
    },
    // supplies of 1000 in one phase
    Whole {
        sheet: "signals 2 2 2 links 4 a 0 1 200 60 20 1 b 1 2 100 50 0 1 c 0 1 200 40 10 1 d 1 2 100 50 0 1 turns 2 1 2 500 500 3 2 500 500 limits 0 start 4 0 0 0 0 rows 1 0 0",
        told: "refused 16 1 1",
    },
    // supplies of 1001 in one phase
    Whole {
        sheet: "signals 2 2 2 links 4 a 0 1 200 60 20 1 b 1 2 100 50 0 1 c 0 1 200 40 10 1 d 1 2 100 50 0 1 turns 2 1 2 500 500 3 2 500 501 limits 0 start 4 0 0 0 0 rows 1 0 0",
        told: "refused 9 112 0",
    },
    // supplies of 1001 in two phases
    Whole {
        sheet: "signals 2 2 2 links 4 a 0 1 200 60 20 1 b 1 2 100 50 0 1 c 0 1 200 40 10 2 d 1 2 100 50 0 1 turns 2 1 2 500 500 3 2 500 501 limits 0 start 4 0 0 0 0 rows 1 0 0",
        told: "refused 16 1 1",
    },
    // two links of one name, storage and flow stay two: 20 + 20 is above 39
    Whole {
        sheet: "signals 1 1 links 2 a 0 1 200 60 20 1 a 0 1 200 60 20 1 turns 0 limits 1 39 2 1 1 2 1 start 2 20 20 rows 1 1",
        told: "refused 13 0 1",
    },
    // and at most 40
    Whole {
        sheet: "signals 1 1 links 2 a 0 1 200 60 20 1 a 0 1 200 60 20 1 turns 0 limits 1 40 2 1 1 2 1 start 2 20 20 rows 1 1",
        told: "shelved 1",
    },
    // a blocked turn, from 40 100 0
    Whole {
        sheet: "signals 2 1 1 links 3 a 0 1 100 60 0 1 b 1 2 100 60 0 0 c 1 2 100 60 0 0 turns 2 1 2 500 1000 1 3 500 1000 limits 0 start 3 40 100 0 rows 1 1 0",
        told: "refused 14 0 1",
    },
    // an open one, from 40 0 0, ends above its start
    Whole {
        sheet: "signals 2 1 1 links 3 a 0 1 100 60 0 1 b 1 2 100 60 0 0 c 1 2 100 60 0 0 turns 2 1 2 500 1000 1 3 500 1000 limits 0 start 3 40 0 0 rows 1 1 0",
        told: "refused 16 1 2",
    },
    // arterial
    Whole {
        sheet: "signals 3\n2 2 2\nlinks 9\neast1 0 1 600 180 60 1\neast2 1 2 400 180 0 1\neast3 2 3 400 180 0 1\nwest1 0 3 600 180 50 1\nwest2 3 2 400 180 0 1\nwest3 2 1 400 180 0 1\nnorth1 0 1 300 90 20 2\nnorth2 0 2 300 90 20 2\nnorth3 0 3 300 90 15 2\nturns 8\n1 2 900 900\n2 3 850 900\n4 5 900 900\n5 6 850 900\n7 2 400 500\n8 3 300 500\n8 6 300 500\n9 5 400 500\nlimits 2\n400 2 2 1 7 1\n900 3 1 1 4 1 8 2\nstart 9\n120 78 109 100 63 94 20 20 15\nrows 3\n1 1 1\n1 1 1\n2 2 2\n",
        told: "shelved 3",
    },
    // arterial-limit
    Whole {
        sheet: "signals 3\n2 2 2\nlinks 9\neast1 0 1 600 180 60 1\neast2 1 2 400 180 0 1\neast3 2 3 400 180 0 1\nwest1 0 3 600 180 50 1\nwest2 3 2 400 180 0 1\nwest3 2 1 400 180 0 1\nnorth1 0 1 300 90 20 2\nnorth2 0 2 300 90 20 2\nnorth3 0 3 300 90 15 2\nturns 8\n1 2 900 900\n2 3 850 900\n4 5 900 900\n5 6 850 900\n7 2 400 500\n8 3 300 500\n8 6 300 500\n9 5 400 500\nlimits 2\n147 2 2 1 7 1\n900 3 1 1 4 1 8 2\nstart 9\n120 78 109 100 63 94 20 20 15\nrows 3\n1 1 1\n1 1 1\n2 2 2\n",
        told: "refused 13 1 1",
    },
    // arterial-blocked
    Whole {
        sheet: "signals 3\n2 2 2\nlinks 9\neast1 0 1 600 180 60 1\neast2 1 2 190 180 0 1\neast3 2 3 400 180 0 1\nwest1 0 3 600 180 50 1\nwest2 3 2 400 180 0 1\nwest3 2 1 400 180 0 1\nnorth1 0 1 300 90 20 2\nnorth2 0 2 300 90 20 2\nnorth3 0 3 300 90 15 2\nturns 8\n1 2 900 900\n2 3 850 900\n4 5 900 900\n5 6 850 900\n7 2 400 500\n8 3 300 500\n8 6 300 500\n9 5 400 500\nlimits 2\n400 2 2 1 7 1\n900 3 1 1 4 1 8 2\nstart 9\n120 78 109 100 63 94 20 20 15\nrows 3\n1 1 1\n1 1 1\n2 2 2\n",
        told: "refused 14 0 1",
    },
    // arterial-overflow
    Whole {
        sheet: "signals 3\n2 2 2\nlinks 9\neast1 0 1 600 180 60 1\neast2 1 2 400 180 0 1\neast3 2 3 400 180 0 1\nwest1 0 3 600 180 50 1\nwest2 3 2 400 180 0 1\nwest3 2 1 400 180 0 1\nnorth1 0 1 300 90 20 2\nnorth2 0 2 300 90 20 2\nnorth3 0 3 40 90 15 2\nturns 8\n1 2 900 900\n2 3 850 900\n4 5 900 900\n5 6 850 900\n7 2 400 500\n8 3 300 500\n8 6 300 500\n9 5 400 500\nlimits 2\n400 2 2 1 7 1\n900 3 1 1 4 1 8 2\nstart 9\n120 78 109 100 63 94 20 20 15\nrows 3\n1 1 1\n1 1 1\n2 2 2\n",
        told: "refused 15 1 9",
    },
    // arterial-end
    Whole {
        sheet: "signals 3\n2 2 2\nlinks 9\neast1 0 1 600 180 60 1\neast2 1 2 400 180 0 1\neast3 2 3 400 180 0 1\nwest1 0 3 600 180 50 1\nwest2 3 2 400 180 0 1\nwest3 2 1 400 180 0 1\nnorth1 0 1 300 90 20 2\nnorth2 0 2 300 90 20 2\nnorth3 0 3 300 90 15 2\nturns 8\n1 2 900 900\n2 3 850 900\n4 5 900 900\n5 6 850 900\n7 2 400 500\n8 3 300 500\n8 6 300 500\n9 5 400 500\nlimits 2\n400 2 2 1 7 1\n900 3 1 1 4 1 8 2\nstart 9\n120 78 108 100 63 94 20 20 15\nrows 3\n1 1 1\n1 1 1\n2 2 2\n",
        told: "refused 16 3 3",
    },
];

// Two values and two modes: the published example.
pub const TWO_MODES: &str =
    "modes 2 places 2 100000 200 100000 100 entries 8 150 10 20 50 70 10 10 110 limits 1 45600 2 1 1 2 1 start 2 15000 30600 rows 7 1 2 2 1 2 2 2";

// The same with other numbers and words.
pub const LINEAR: [Change; 39] = [
    // nothing is changed
    Change {
        old: "rows 7",
        new: "rows 7",
        told: "shelved 7",
    },
    // bound 45599
    Change {
        old: "45600",
        new: "45599",
        told: "refused 13 0 1",
    },
    // another start
    Change {
        old: "15000 30600",
        new: "14912 30481",
        told: "shelved 7",
    },
    // a start too low
    Change {
        old: "15000 30600",
        new: "14000 30600",
        told: "refused 16 7 1",
    },
    // a top that cuts off at row 0
    Change {
        old: "100000 200",
        new: "25759 200",
        told: "refused 15 0 1",
    },
    // a top that does not
    Change {
        old: "100000 200",
        new: "27745 200",
        told: "shelved 7",
    },
    // line and column swapped
    Change {
        old: "150 10 20 50",
        new: "150 20 10 50",
        told: "refused 13 1 1",
    },
    // mode 0 in the first row
    Change {
        old: "7 1 2 2",
        new: "7 0 2 2",
        told: "refused 13 1 1",
    },
    // modes misspelt
    Change {
        old: "modes",
        new: "mode",
        told: "refused 4 0 0",
    },
    // places misspelt
    Change {
        old: "places",
        new: "place",
        told: "refused 4 8 0",
    },
    // entries misspelt
    Change {
        old: "entries",
        new: "entry",
        told: "refused 4 39 0",
    },
    // limits misspelt
    Change {
        old: "limits",
        new: "limit",
        told: "refused 4 75 0",
    },
    // a network's first word
    Change {
        old: "modes",
        new: "signals",
        told: "refused 5 10 0",
    },
    // no mode
    Change {
        old: "modes 2",
        new: "modes 0",
        told: "refused 6 6 0",
    },
    // 9 modes
    Change {
        old: "modes 2",
        new: "modes 9",
        told: "refused 6 6 0",
    },
    // a leading zero
    Change {
        old: "modes 2",
        new: "modes 02",
        told: "refused 5 6 0",
    },
    // a mode without entries
    Change {
        old: "modes 2",
        new: "modes 3",
        told: "refused 6 47 0",
    },
    // no place
    Change {
        old: "places 2",
        new: "places 0",
        told: "refused 6 15 0",
    },
    // 17 places
    Change {
        old: "places 2",
        new: "places 17",
        told: "refused 6 15 0",
    },
    // top 0
    Change {
        old: "100000 200",
        new: "0 200",
        told: "refused 6 17 0",
    },
    // top 100001
    Change {
        old: "100000 200",
        new: "100001 200",
        told: "refused 6 17 0",
    },
    // load above the top
    Change {
        old: "100000 200",
        new: "100000 100001",
        told: "refused 6 24 0",
    },
    // a load that is no number
    Change {
        old: "100000 200",
        new: "100000 x",
        told: "refused 5 24 0",
    },
    // 7 entries
    Change {
        old: "entries 8",
        new: "entries 7",
        told: "refused 6 47 0",
    },
    // 9 entries
    Change {
        old: "entries 8",
        new: "entries 9",
        told: "refused 6 47 0",
    },
    // entry 10001
    Change {
        old: "150 10",
        new: "10001 10",
        told: "refused 6 49 0",
    },
    // entry 10000
    Change {
        old: "150 10 20",
        new: "10000 10 20",
        told: "refused 15 0 1",
    },
    // an entry missing
    Change {
        old: "10 110 limits",
        new: "10 limits",
        told: "refused 5 71 0",
    },
    // 33 limits
    Change {
        old: "limits 1",
        new: "limits 33",
        told: "refused 6 82 0",
    },
    // place 3
    Change {
        old: "2 1 1 2 1",
        new: "2 1 1 3 1",
        told: "refused 6 96 0",
    },
    // weight 1001
    Change {
        old: "2 1 1 2 1",
        new: "2 1 1001 2 1",
        told: "refused 6 94 0",
    },
    // a place named twice
    Change {
        old: "2 1 1 2 1",
        new: "2 1 1 1 1",
        told: "refused 10 84 0",
    },
    // a start of 3 places
    Change {
        old: "start 2",
        new: "start 3",
        told: "refused 6 7 0",
    },
    // no row
    Change {
        old: "rows 7",
        new: "rows 0",
        told: "refused 6 26 0",
    },
    // mode 3
    Change {
        old: "7 1 2 2",
        new: "7 3 2 2",
        told: "refused 6 28 0",
    },
    // mode 9
    Change {
        old: "7 1 2 2",
        new: "7 9 2 2",
        told: "refused 6 28 0",
    },
    // a bad byte
    Change {
        old: "entries",
        new: "entr\x07ies",
        told: "refused 2 43 0",
    },
    // a mode missing
    Change {
        old: "1 2 2 2",
        new: "1 2 2",
        told: "refused 3 39 0",
    },
    // the limit misses its term
    Change {
        old: "45600 2 1 1 2 1 start",
        new: "45600 2 1 1 2 start",
        told: "refused 5 98 0",
    },
];
