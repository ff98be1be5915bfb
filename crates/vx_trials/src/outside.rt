// Elections that another program made.

// Three cards of two styles, one of them a party's.
pub(crate) fn first() -> &'static str {
    "{\"title\":\"O3\",\"date\":\"2023-02-28\",\"districts\":[{\"id\":\"d8fgARJDV\",\"name\":\"_b\
     ozKvY|ek4lUYxCm5n0LTa6yf]^Y#PAgihn7v);.\"}],\"precincts\":[{\"id\":\"pq6a\",\"name\":\"n1^TH\
     /mYghuz\u{301}EZbQ7O'\\t?Zv\"},{\"id\":\"pfyIqWDlxuorCpzj_UfIjHFSCLmwHePM0OaGk5X2r\",\"name\
     \":\"\\\\tK\\u00019dq{7\"}],\"contests\":[{\"id\":\"kKhC-ejdn\",\"type\":\"candidate\",\"sea\
     ts\":1,\"candidates\":[{\"id\":\"canM\",\"name\":\"RDs\"}],\"allowWriteIns\":true,\"partyId\
     \":\"partylAH\",\"districtId\":\"d8fgARJDV\",\"title\":\"kdR.w\"},{\"id\":\"k66atKXJDk55OBms\
     1_.8lTONjZ7pl8bqEICBh7Pgj\",\"type\":\"candidate\",\"seats\":3,\"candidates\":[{\"id\":\"cbn\
     rBJNNu\",\"name\":\"1JnPls.68\",\"partyIds\":[\"party\",\"party8ro\",\"partylAH\",\"party\",\
     \"partylAH\",\"party8ro\",\"party8ro\",\"party8ro\",\"partylAH\",\"partylAH\"]},{\"id\":\"cc\
     _3\",\"name\":\"AN2d5nb<vk&\",\"partyIds\":[\"party8ro\",\"party8ro\"]},{\"id\":\"cf_5f-Vz.B\
     Bl92cgiPBfKq_IptmAoJBZBJ62lPg6g\",\"name\":\",字qPbqKXEz00HAPJ=T|\u{301}]?bV\"},{\"id\":\"c4j\
     y\",\"name\":\"})!pa?KbXsZo~\",\"partyIds\":[\"party\",\"party8ro\",\"partylAH\",\"party\",\
     \"partylAH\",\"party8ro\",\"party8ro\",\"party\",\"party\",\"party8ro\"]},{\"id\":\"cRl93Qu8\
     7\",\"name\":\"E44Gn<PB,\"},{\"id\":\"c4\",\"name\":\"Y|B!6%<DpSHgD[*ifMJo[k 5\u{a0}\",\"par\
     tyIds\":[\"party8ro\",\"party8ro\",\"party8ro\",\"party\",\"party\",\"party\",\"party8ro\",\
     \"party8ro\",\"partylAH\",\"party8ro\"]},{\"id\":\"c9\",\"name\":\"`a\",\"partyIds\":[]},{\"\
     id\":\"ctgBZbWwcOCw2I4-K66kMhkG8UE2oB9BMjW.rIFnu\",\"name\":\"Jyg/wT\",\"partyIds\":[]}],\"a\
     llowWriteIns\":true,\"districtId\":\"d8fgARJDV\",\"title\":\"\u{1f600}lo0u(\u{301}g93Q:sWuDX\
     )dI \u{2028}D*3\"},{\"id\":\"kT\",\"type\":\"candidate\",\"seats\":1,\"candidates\":[{\"id\"\
     :\"cf_GsFfzX\",\"name\":\"B\"},{\"id\":\"chnpUZL_u3XJqmkzuBCotlaIUJu4YnQCdYrJRu9eY\",\"name\
     \":\"7IS\"},{\"id\":\"c5LDI5Hmyero4J6Rr3By_Uit9.P7MTNB.kmG.ZV_q\",\"name\":\"Sf7j;7wwNU;sYT\
     \",\"partyIds\":[\"party8ro\"]}],\"districtId\":\"d8fgARJDV\",\"title\":\"uJb\"},{\"id\":\"k\
     agL_4REzhek9XnzBDu8H13nNvYmRxPCoVKVCpTu2\",\"type\":\"yesno\",\"yesOption\":{\"label\":\"C5n\
     %\"},\"districtId\":\"d8fgARJDV\",\"title\":\"Fgz\"},{\"id\":\"kp\",\"type\":\"yesno\",\"noO\
     ption\":{\"label\":\"%GN\"},\"districtId\":\"d8fgARJDV\",\"title\":\"[jIrl@+Slllbni\"},{\"id\
     \":\"k4PrDy4sJd10.fFw8v_Ac0EFbnffBchj8iDNz-f4X\",\"type\":\"candidate\",\"seats\":1,\"candid\
     ates\":[{\"id\":\"cISZj__-r\",\"name\":\"é(\"},{\"id\":\"cr3kvd.GZ\",\"name\":\"é8NATb:ZcGM\
     \\u001fWT0H\"},{\"id\":\"cZ2cPLvRyGuLwsX5a9LQizgdsDOokQgpak4SreC0r\",\"name\":\"^m\",\"party\
     Ids\":[]},{\"id\":\"c0lJ-qO.B_AglF7G4lShi-eR3zXbst9EN0M4PfTol\",\"name\":\"k3\",\"partyIds\"\
     :[\"party\",\"party\"]},{\"id\":\"cs\",\"name\":\"7&4>e]\"},{\"id\":\"c7p9iK6EY1.SXMuPQa_HB.\
     c0f8K_rSdDxNBYtOusF\",\"name\":\"Z+I`PVPZ^3kkUGa\"},{\"id\":\"ck\",\"name\":\"_\u{85}HlZ>jß&\
     Z^#dTZk4>spacr/Q#JJ\"},{\"id\":\"cwcy\",\"name\":\"s!v<P0aKaDR~\\\"-w/F$M\"}],\"allowWriteIn\
     s\":true,\"partyId\":\"partylAH\",\"districtId\":\"d8fgARJDV\",\"title\":\"QЖ0c!nAg\"},{\"id\
     \":\"kX\",\"type\":\"candidate\",\"seats\":1,\"candidates\":[{\"id\":\"cunq\",\"name\":\"K[x\
     >r|5dtx9m<J\"},{\"id\":\"c\",\"name\":\"|;\"},{\"id\":\"c6\",\"name\":\"wGfHclkiXKmtBE\"},{\
     \"id\":\"cFuDsaMGfdLGk3gQbwYmGFHPy5_l6BaFY8aCLRIi3\",\"name\":\"3\",\"partyIds\":[\"party\",\
     \"party\"]},{\"id\":\"ce\",\"name\":\"#Acß05Tn\",\"partyIds\":[\"partylAH\"]},{\"id\":\"c3TQ\
     Fe8k1\",\"name\":\"<1x\"},{\"id\":\"cfGf8T4Rj\",\"name\":\"J\\\\&2VO\",\"partyIds\":[\"party\
     8ro\"]},{\"id\":\"c3uCHD.nj0FkLDvaJTbM606OZEu17KcLgNdV7g5xO\",\"name\":\"ZjXOAA\"},{\"id\":\
     \"cg\",\"name\":\"Hwbdd]!?V76tgt+~hfk\\n0QobN2Y\"},{\"id\":\"c7\",\"name\":\"VveM4Y1KK.\\n\"\
     ,\"partyIds\":[\"party8ro\",\"party8ro\"]},{\"id\":\"ch0j4XFva8BWCumWfCfUG-IHTL2BEmcZSPArVV3\
     Cy\",\"name\":\"W\\u001fv@F,4xUKYCA1A5OlkmJtVS7w\"},{\"id\":\"cKMTj2Ru3XLWCNCoeoVUUVKQ1ovtTl\
     ZNGrliO__S5\",\"name\":\"O7sFT<'#\"},{\"id\":\"cY\",\"name\":\"*O0C'e-E:\"},{\"id\":\"cwRyDq\
     VzQ\",\"name\":\"kb\"},{\"id\":\"c3QH\",\"name\":\"I45 25J8r ZF.B]NH~%C6Ru\\\\[q\",\"partyId\
     s\":[\"party8ro\",\"party\",\"partylAH\",\"party8ro\",\"party\",\"partylAH\",\"party8ro\",\"\
     partylAH\",\"party\",\"partylAH\"]},{\"id\":\"cDIfuVWN07Sd0X7v9eJrU5pbTaaD0DFpu7K3NWFy2\",\"\
     name\":\"as2a4H'-I!h\"},{\"id\":\"cFdU\",\"name\":\"F@+\"},{\"id\":\"cDMmgzXob2jDQ7l3VG6oYQI\
     r8F9Qtbsv7YwkGdKUL\",\"name\":\"!l\",\"partyIds\":[\"party8ro\"]},{\"id\":\"c.v0\",\"name\":\
     \"*\\\"2NqDF\",\"partyIds\":[]},{\"id\":\"cS\",\"name\":\"k#\"}],\"partyId\":\"partylAH\",\"\
     districtId\":\"d8fgARJDV\",\"title\":\"jpbzZ\u{7f}LBk!yby1=o\"},{\"id\":\"kqwNouY_d\",\"type\
     \":\"candidate\",\"seats\":1,\"candidates\":[{\"id\":\"cvihx_A1h\",\"name\":\"3I}lXzAeEb;\"}\
     ,{\"id\":\"cg9asIJni\",\"name\":\"eX!\"},{\"id\":\"c\",\"name\":\"r75\u{85}zk[~AwPM8Lg5}0!iU\
     iMkfXUE\"}],\"allowWriteIns\":true,\"districtId\":\"d8fgARJDV\",\"title\":\"g\"}],\"ballotSt\
     yles\":[{\"id\":\"s\",\"precincts\":[\"pq6a\"],\"districts\":[\"d8fgARJDV\"]},{\"id\":\"sop5\
     wYYJc\",\"precincts\":[\"pq6a\",\"pfyIqWDlxuorCpzj_UfIjHFSCLmwHePM0OaGk5X2r\"],\"districts\"\
     :[\"d8fgARJDV\"],\"partyId\":\"partylAH\"}],\"parties\":[{\"id\":\"party8ro\",\"name\":\"w\"\
     },{\"id\":\"party\",\"name\":\"w;\"},{\"id\":\"partylAH\",\"name\":\">@fH\"}],\"state\":\"|h\
     D)\",\"vxReasons\":[\"Overvote\",\"MarginalMark\",\"WriteIn\",\"Undervote\"],\"vxPaper\":\"l\
     etter\"}"
}

// Four cards of two styles of one party.
pub(crate) fn second() -> &'static str {
    "{\"title\":\"fhwleZ:Q'Xn%;A!jn'U7bGvXkaMEQ+NK}:J4[jis9M=Ic}F>O9f1x9I48UJ\",\"date\":\"9999-1\
     2-31\",\"districts\":[{\"id\":\"dS97qzXDt\",\"name\":\"`Mxf,PzMOvb`lb\\\\AI[VT.}>UI\\\\\"},{\
     \"id\":\"doZizxUcG\",\"name\":\"tu0{\\\\\\\"-QF?7wF8+\"}],\"precincts\":[{\"id\":\"pc\",\"na\
     me\":\";iE\"},{\"id\":\"phl.\",\"name\":\"Smzymx4]F\"},{\"id\":\"p9pRapcFy\",\"name\":\"\\\"\
     IV<f\\nK4字cHc',SM\"}],\"contests\":[{\"id\":\"kyjPbJu5q\",\"type\":\"candidate\",\"seats\":2\
     ,\"candidates\":[{\"id\":\"cB\",\"name\":\"B= 'hpzm[mm~9^uL?NFZWE{wqL\"},{\"id\":\"c\",\"nam\
     e\":\"NG0dn{PvZhx9ZN0c9G'V>M3?dwT?(\",\"partyIds\":[]},{\"id\":\"cGCN\",\"name\":\"qy\\\"$\"\
     ,\"partyIds\":[\"partyl\",\"partyl\",\"partyl\",\"partyl\",\"partyl\",\"partyl\",\"partyl\",\
     \"partyl\",\"partyl\",\"partyl\"]},{\"id\":\"c4.E\",\"name\":\"s7(\"},{\"id\":\"cLZu\",\"nam\
     e\":\"5m6\"}],\"allowWriteIns\":true,\"districtId\":\"doZizxUcG\",\"title\":\"Q\"},{\"id\":\
     \"koA3\",\"type\":\"yesno\",\"yesOption\":{\"label\":\"hGnbSmCQj\"},\"districtId\":\"dS97qzX\
     Dt\",\"title\":\"i`y\u{7f}[Lw8L6e\"},{\"id\":\"kD\",\"type\":\"candidate\",\"seats\":1,\"can\
     didates\":[{\"id\":\"caahnn_02.berDBUX0dggm86xC9j1aWHVGNuC.ShS\",\"name\":\"SWZ nX`Bw6vwQLxT\
     Z/xTA4B6~^tmQ\",\"partyIds\":[\"partyl\",\"partyl\"]},{\"id\":\"cv5f\",\"name\":\"Bd&HQ?W\"}\
     ,{\"id\":\"c-ql\",\"name\":\"t\u{7f}KQ2q wlW*1`(b9mt\"},{\"id\":\"c5rFCvrMcHS6hUhbR1XuJ7yBa4\
     tDgxdOwCanFFYbm\",\"name\":\"Y\\\"Q2NE'2\"}],\"districtId\":\"doZizxUcG\",\"title\":\"N\"}],\
     \"ballotStyles\":[{\"id\":\"sFIYhp2_U\",\"precincts\":[\"p9pRapcFy\"],\"districts\":[\"doZiz\
     xUcG\"],\"partyId\":\"partyl\"},{\"id\":\"smB2WDpF4jJ.HQOem2Enx2xwWdvZJfubQPdwlhGmc\",\"prec\
     incts\":[\"p9pRapcFy\",\"phl.\",\"pc\"],\"districts\":[\"dS97qzXDt\",\"doZizxUcG\"],\"partyI\
     d\":\"partyl\"}],\"parties\":[{\"id\":\"partyl\",\"name\":\"pr\"}],\"state\":\"s/$t4;FYNV97z\
     \",\"county\":null}"
}
