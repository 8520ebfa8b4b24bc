//! Documents of several domains, each without its strikes and with them apart.

// A document with a root and one domain below it, which fills their region: what stands before the region, then what the
// root and the one below are.
macro_rules! nested {
    ($head:literal, $root:literal, $below:literal) => {
        concat!(
            $head,
            "region y 4 const 0\ndomain root ",
            $root,
            "\npreserve y copy\ndomain a ",
            $below,
            "\npreserve y copy\nfill y 7\nend\nend\n"
        )
    };
}

/// A root that finds what ends the one below it.
pub(crate) const NESTED: &str = nested!("cd 1\n", "retry 2 detects node", "retry 1 detects flip");

/// The one below has no second try, so the root begins again.
pub(crate) const NESTED_STRUCK: &str = "faults\nstrike root/a 1 1 flip y[0] 255\n";

/// The same with a root that finds what is left to it.
pub(crate) const LEAKING: &str = nested!("cd 1\n", "retry 2 detects link", "retry 1 detects flip");

/// The one below does not find what struck it, and the root does.
pub(crate) const LEAKING_STRUCK: &str = "faults\nstrike root/a 1 1 link y[1] 4\n";

/// Two members, each with a region of its own.
pub(crate) const MEMBERS: &str = "\
cd 1
region y 4 const 0
region z 4 iota 10 1
domain root retry 2 detects node
preserve y copy
preserve z copy
group
domain b retry 1 detects flip
preserve y copy
fill y 7
end
domain c retry 1 detects flip
preserve z copy
fill z 9
end
end
end
";

/// The first has no second try.
pub(crate) const MEMBERS_STRUCK: &str = "faults\nstrike root/b 1 1 flip y[2] 1\n";

/// One below that refers to what the root copied.
pub(crate) const REFERRING: &str = "\
cd 1
region x 4 iota 1 1
region y 4 const 0
domain root retry 2 detects link
preserve x copy
preserve y copy
domain a retry 2 detects flip
preserve x refer
preserve y refer
copy y x
end
end
";

/// What the root copied was struck after the copying; then the one below is struck.
pub(crate) const REFERRING_STRUCK: &str = "\
faults
strike root 1 0 link x[0] 8
strike root/a 1 1 flip y[3] 1
";

/// Two members that refer to the same words, and only read them.
pub(crate) const SHARING: &str = "\
cd 1
region x 2 iota 5 1
region y 2 const 0
region z 2 const 0
domain root retry 1 detects none
preserve x copy
preserve y copy
preserve z copy
group
domain b retry 2 detects flip
preserve x refer
preserve y copy
copy y x
end
domain c retry 2 detects flip
preserve x refer
preserve z copy
copy z x
end
end
end
";

pub(crate) const SHARING_STRUCK: &str = "faults\nstrike root/b 1 0 flip x[0] 1\n";

/// Kinds that the document names, of which one halts.
pub(crate) const HALTING: &str = nested!(
    "cd 2\nkind soft\nkind hard halt\n",
    "retry 2 detects hard",
    "retry 3 detects soft"
);

/// The same where the one below finds what halts it.
pub(crate) const HALTING_FOUND: &str = nested!(
    "cd 2\nkind soft\nkind hard halt\n",
    "retry 2 detects hard",
    "retry 3 detects soft,hard"
);

/// The same where the root has no second try.
pub(crate) const HALTING_LAST: &str = nested!(
    "cd 2\nkind soft\nkind hard halt\n",
    "retry 1 detects hard",
    "retry 3 detects soft"
);

pub(crate) const HALTED: &str = "faults\nstrike root/a 1 0 hard y[0] 1\n";

/// The hierarchical product: 256 rows in four parts of four blocks of rows.
pub(crate) const PRODUCT: &str = "\
cd 1
region starts 257 iota 0 2
region cols 512 iota 0 1
region vals 512 const 3
region x 512 iota 1 1
region y 256 const 0
domain root retry 3 detects node
preserve starts copy
preserve cols copy
preserve vals copy
preserve x copy
preserve y copy
group
for a in 0..4
domain part:a retry 2 detects lost,link
preserve starts[64*a..64*a+65] refer
preserve cols refer
preserve vals refer
preserve x refer
preserve y[64*a..64*a+64] copy
group
for b in 0..4
domain rows:b retry 3 detects flip
preserve starts[64*a+16*b..64*a+16*b+17] refer
preserve cols refer
preserve vals refer
preserve x refer
preserve y[64*a+16*b..64*a+16*b+16] refer
spmv y[64*a+16*b..64*a+16*b+16] starts[64*a+16*b..64*a+16*b+17] cols vals x
end
end
end
end
end
end
end
";

/// A root that finds the one kind that the document names.
pub(crate) const NAMED: &str =
    "cd 2\nkind seu\nregion y 4 const 0\ndomain root retry 2 detects seu\npreserve y copy\nfill y 7\nend\n";

/// It has no try left.
pub(crate) const NAMED_STRUCK: &str =
    "faults\nstrike root 1 1 seu y[0] 255\nstrike root 2 1 seu y[0] 1\n";

/// A root that has its words made anew by a pattern, up to its first item.
pub(crate) const ANEW: &str =
    "cd 1\nregion y 4 const 0\ndomain root retry 2 detects flip\npreserve y regen const 1\n";

/// A root that copies its words, up to its first item.
pub(crate) const COPIED: &str =
    "cd 1\nregion y 4 const 0\ndomain root retry 2 detects flip\npreserve y copy\n";

/// Tries of the root, of which strikes may take all but one.
pub(crate) const TRIED: &str = "\
cd 1
region y 4 const 0
domain root retry 100 detects flip
preserve y copy
fill y 7
end
faults
";

/// All but the last of its tries are struck, and all of them.
pub(crate) const STRUCK_99: &str = "for a in 1..100\nstrike root a 1 flip y[0] 1\nend\n";

pub(crate) const STRUCK_100: &str = "for a in 1..101\nstrike root a 1 flip y[0] 1\nend\n";

/// Of these the tenth never comes.
pub(crate) const PRODUCT_STRUCK: &str = "\
faults
strike root/part0/rows0 1 1 flip y[0] 1
strike root/part0/rows0 2 1 flip y[1] 2
strike root/part0/rows1 1 0 flip x[0] 4
strike root/part1/rows2 1 1 link y[96] 8
strike root/part1 2 0 lost vals[5] 16
strike root/part2 1 1 link y[128] 32
strike root/part3/rows3 1 0 node cols[511] 64
strike root/part0/rows0 4 1 flip y[2] 128
strike root 2 1 node y[255] 1
strike root/part2/rows1 9 1 flip y[150] 1
strike root/part3 3 0 lost x[7] 0
strike root/part1/rows2 4 1 flip y[100] 255
";

// What is reported of the product under them: the lines of regions, and how often each domain begins.
macro_rules! product {
    ($regions:literal) => {
        concat!(
            "committed\n",
            $regions,
            "begins root 3\n",
            "begins root/part0 3\n",
            "begins root/part0/rows0 6\n",
            "begins root/part0/rows1 4\n",
            "begins root/part0/rows2 3\n",
            "begins root/part0/rows3 3\n",
            "begins root/part1 4\n",
            "begins root/part1/rows0 4\n",
            "begins root/part1/rows1 4\n",
            "begins root/part1/rows2 5\n",
            "begins root/part1/rows3 4\n",
            "begins root/part2 4\n",
            "begins root/part2/rows0 4\n",
            "begins root/part2/rows1 4\n",
            "begins root/part2/rows2 4\n",
            "begins root/part2/rows3 4\n",
            "begins root/part3 4\n",
            "begins root/part3/rows0 4\n",
            "begins root/part3/rows1 4\n",
            "begins root/part3/rows2 4\n",
            "begins root/part3/rows3 4\n",
            "total 83\n"
        )
    };
}

pub(crate) const PRODUCT_READ: &str = product!("");

pub(crate) const PRODUCT_RUN: &str = product!(
    "region starts length 257 sum 65792 weighted 11316224\n\
    region cols length 512 sum 130816 weighted 44739072\n\
    region vals length 512 sum 1536 weighted 393984\n\
    region x length 512 sum 131328 weighted 44870400\n\
    region y length 256 sum 393984 weighted 67403904\n"
);
