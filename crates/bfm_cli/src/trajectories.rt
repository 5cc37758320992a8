//! Runs of several bonded chains. The bytes were computed by a program of another hand, written in
//! Python from the rules of the model alone.

/// The words of a job, its input, what its output has behind the input, and its report.
#[derive(Clone, Copy)]
pub struct Trajectory {
    pub words: &'static str,
    pub input: &'static str,
    pub added: &'static str,
    pub report: &'static str,
}

#[rattlefmt::skip]
pub const TRAJECTORIES: [Trajectory; 3] = [
    // three chains in a periodic box
    Trajectory {
        words: "run seed=1 frames=3 every=8",
        input: "!number_of_monomers=20\n!box_x=8\n!box_y=8\n!box_z=8\n!periodic_x=1\n!periodic_y=1\n!periodic_z=1\n!set_of_bondvectors\n2 0 0:32\n0 2 0:33\n0 0 2:34\n0 0 -2:35\n0 -2 0:36\n-2 0 0:37\n2 1 0:38\n2 0 1:39\n2 0 -1:40\n2 -1 0:41\n1 2 0:42\n1 0 2:43\n1 0 -2:44\n1 -2 0:45\n0 2 1:46\n0 2 -1:47\n0 1 2:48\n0 1 -2:49\n0 -1 2:50\n0 -1 -2:51\n0 -2 1:52\n0 -2 -1:53\n-1 2 0:54\n-1 0 2:55\n-1 0 -2:56\n-1 -2 0:57\n-2 1 0:58\n-2 0 1:59\n-2 0 -1:60\n-2 -1 0:61\n!mcs=0\n2 1 4 #/8./,\n3 1 7  ,-38\n6 0 3 8./15'\n",
        added: "\n!mcs=8\n3 1 4 8/8./#\n3 1 7  ,-3#\n5 0 3 #./15'\n\n!mcs=16\n3 1 4 8/86!,\n3 1 6 ',-33\n5 1 3 3!!15 \n\n!mcs=24\n1 1 4 ,/86!,\n3 1 7  ,-31\n4 0 3 ,*61$ \n",
        report: "kept 454\nframes 3\nmcs 24\nskipped 0\naccepted 70\nlinks 0\ncrossing free\n",
    },
    // chains between walls, and a bond between two of them
    Trajectory {
        words: "run seed=2 frames=3 every=6",
        input: "!number_of_monomers=19\n!box_x=9\n!box_y=8\n!box_z=11\n!periodic_x=0\n!periodic_y=1\n!periodic_z=0\n!set_of_bondvectors\n2 0 0:60\n0 2 0:61\n0 0 2:62\n0 0 -2:63\n0 -2 0:64\n-2 0 0:65\n2 1 0:66\n2 0 1:67\n2 0 -1:68\n2 -1 0:69\n1 2 0:70\n1 0 2:71\n1 0 -2:72\n1 -2 0:73\n0 2 1:74\n0 2 -1:75\n0 1 2:76\n0 1 -2:77\n0 -1 2:78\n0 -1 -2:79\n0 -2 1:80\n0 -2 -1:81\n-1 2 0:82\n-1 0 2:83\n-1 0 -2:84\n-1 -2 0:85\n-2 1 0:86\n-2 0 1:87\n-2 0 -1:88\n-2 -1 0:89\n2 1 1:90\n2 1 -1:91\n2 -1 1:92\n2 -1 -1:93\n1 2 1:94\n1 2 -1:95\n1 1 2:96\n1 1 -2:97\n1 -1 2:98\n1 -1 -2:99\n1 -2 1:100\n1 -2 -1:101\n-1 2 1:102\n-1 2 -1:103\n-1 1 2:104\n-1 1 -2:105\n-1 -1 2:106\n-1 -1 -2:107\n-1 -2 1:108\n-1 -2 -1:109\n-2 1 1:110\n-2 1 -1:111\n-2 -1 1:112\n-2 -1 -1:113\n!bonds\n6 11\n!mcs=5\n0 1 1 FfLb\n3 0 9 gFWUe\n3 7 4 [\\qYPph\n",
        added: "\n!mcs=11\n0 1 1 J=LN\n3 0 9 R_WUe\n3 8 4 D\\YqPWj\n\n!mcs=17\n1 1 3 =KL>\n3 0 8 =JA@Q\n3 8 3 <EpY@pS\n\n!mcs=23\n1 1 2 RFhb\n3 0 8 JKW@Q\n3 8 3 C]Yp@pS\n",
        report: "kept 732\nframes 3\nmcs 23\nskipped 0\naccepted 97\nlinks 0\ncrossing free\n",
    },
    // bonds through the boundary, and coordinates below 0
    Trajectory {
        words: "run seed=18446744073709551615 frames=3 every=7",
        input: "!number_of_monomers=19\n!box_x=8\n!box_y=9\n!box_z=10\n!periodic_x=1\n!periodic_y=1\n!periodic_z=1\n!set_of_bondvectors\n2 0 0:65\n0 2 0:66\n0 0 2:67\n0 0 -2:68\n0 -2 0:69\n-2 0 0:70\n2 1 0:71\n2 0 1:72\n2 0 -1:73\n2 -1 0:74\n1 2 0:75\n1 0 2:76\n1 0 -2:77\n1 -2 0:78\n0 2 1:79\n0 2 -1:80\n0 1 2:81\n0 1 -2:82\n0 -1 2:83\n0 -1 -2:84\n0 -2 1:85\n0 -2 -1:86\n-1 2 0:87\n-1 0 2:88\n-1 0 -2:89\n-1 -2 0:90\n-2 1 0:91\n-2 0 1:92\n-2 0 -1:93\n-2 -1 0:94\n3 0 0:95\n0 3 0:96\n0 0 3:97\n0 0 -3:98\n0 -3 0:99\n-3 0 0:100\n!bonds\n1 2\n2 3\n7 8\n10 11\n12 19\n14 15\n17 18\n!mcs=1000\n-5 -1 2\n2 -1 4\n-3 -1 4 EA_\n-5 -2 -2\n0 -2 -2 ZJ\n-5 3 -2\n-2 0 1 KC\n-1 -5 3 R_\n1 3 1 c\n",
        added: "\n!mcs=1007\n-5 -1 1\n3 -1 4\n-3 -1 4 cG_\n-6 -1 -2\n0 -2 -2 ZJ\n-5 3 -2\n-1 -1 1 `a\n-1 -5 3 R_\n1 3 1 c\n\n!mcs=1014\n-4 -1 2\n3 -1 4\n-3 -2 4 EGA\n-6 -2 -1\n0 -2 -2 ZJ\n-5 3 -2\n-2 0 1 KL\n-1 -5 3 DG\n1 2 1 E\n\n!mcs=1021\n-5 0 2\n3 -1 4\n-3 -1 4 cGI\n-6 -1 -2\n0 -2 -2 ZJ\n-5 4 -3\n-1 0 1 BC\n-1 -5 3 DH\n1 2 2 V\n",
        report: "kept 605\nframes 3\nmcs 1021\nskipped 0\naccepted 62\nlinks 0\ncrossing free\n",
    },
];
