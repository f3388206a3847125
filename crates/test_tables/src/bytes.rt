// Bytes that no table text has: each makes its line no form. The other texts are on standard input.
use crate::list;

fn tabs_and_returns(rt: &impl Print) {
    list::cases(
        rt,
        b"tab for a space|(quota\t3 (cede 3333) (capacity 7) (event 9))\n|\
        tab in an item|(quota 3 (cede\t3333) (capacity 7) (event 9))\n|\
        tab after the line|(quota 3 (cede 3333) (capacity 7) (event 9))\t\n|\
        carriage return|(quota 3 (cede 3333) (capacity 7) (event 9))\r\n|\
        carriage return alone|(quota 3 (cede 3333) (capacity 7) (event 9))\r",
        0,
    );
}

fn nul_bytes(rt: &impl Print) {
    list::cases(
        rt,
        b"NUL for a space|(quota 3\0(cede 3333) (capacity 7) (event 9))\n|\
        NUL first|\0(quota 3 (cede 3333) (capacity 7) (event 9))\n|\
        NUL before the line feed|(quota 3 (cede 3333) (capacity 7) (event 9))\0\n|\
        NUL after the last line|(quota 3 (cede 3333) (capacity 7) (event 9))\n\0|\
        NUL alone|\0",
        0,
    );
}

fn above_127(rt: &impl Print) {
    list::cases(
        rt,
        b"byte 128 after a digit|(quota 3 (cede 3333\x80) (capacity 7) (event 9))\n|\
        digit 3 with the top bit|(quota \xb3 (cede 3333) (capacity 7) (event 9))\n|\
        bracket with the top bit|\xa8quota 3 (cede 3333) (capacity 7) (event 9))\n|\
        q with the top bit|(\xf1uota 3 (cede 3333) (capacity 7) (event 9))\n|\
        line feed with the top bit|(quota 3 (cede 3333) (capacity 7) (event 9))\x8a|\
        byte 255 after the last line|(quota 3 (cede 3333) (capacity 7) (event 9))\n\xff|\
        three bytes first|\xef\xbb\xbf(quota 3 (cede 3333) (capacity 7) (event 9))\n",
        0,
    );
}

pub fn cases(rt: &impl Print) {
    tabs_and_returns(rt);
    nul_bytes(rt);
    above_127(rt);
}
