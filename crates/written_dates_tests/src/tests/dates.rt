//! Texts, and what is written for them.

/// After a sign `#`: a calendar, the order, what is done with short years and with short Hebrew ones, and whether the
/// year of a Roman date is that of its day; and what is done with short years of other calendars. Below it: a text, and
/// what is written for it, `=` where that is the text. The answers were found by hand.
pub(super) const DATES: &str = "\
#gregorian day refuse refuse day-of-mark
12. Mai 1806|1806-5-12
1806 Mai 12|1806-5-12
May 12, 1806|1806-5-12
12.V.1806|1806-5-12
12. 5. 1806|1806-5-12
1806/5/12|1806-5-12
1806–5–12|1806-5-12
1806-05-12|=
12.5.1806|1806-5-12
12/5/1806|1806-5-12
12,5,1806|1806-5-12
12 5 1806|1806-5-12
12-5-1806|1806-5-12
12–05–1806|1806-5-12
12\u{2212}5\u{2212}1806|1806-5-12
12\u{2010}5\u{2014}1806|1806-5-12
 12 . 5 . 1806 |1806-5-12
\u{a0}12.5.1806\u{a0}|1806-5-12
12.\u{202f}5.\u{202f}1806|1806-5-12
\u{a0}1806-05-12\u{a0}|1806-05-12
\t1806-05-12\u{202f} |1806-05-12
1806 -05-12|=
1806- 05-12|1806-5-12
012.05.1806|=
XII.V.MDCCCVI|1806-5-12
XII V 1806|1806-5-12
xii.5.1806|=
12.IIII.1806|=
12.VX.1806|=
12.iv.1806|=
12.IV.1806|1806-4-12
12.IX.MCMXCIX|1999-9-12
MDCCCVI.V.XII|1806-5-12
12.Mai.1806|1806-5-12
12 mai 1806|1806-5-12
12 MAI 1806|1806-5-12
12. März 1806|1806-3-12
12. MÄRZ 1806|1806-3-12
12. mÄRZ 1806|1806-3-12
12. MäRZ 1806|1806-3-12
12ten Mai 1806|=
den 12. Mai 1806|1806-5-12
Sonntag, den 12. Mai 1806|=
Montag, den 12. Mai 1806|1806-5-12
Di 12.5.1806|=
Mo 12.5.1806|1806-5-12
DI 12.5.1806|=
MO 12.5.1806|1806-5-12
Mi, 12 Mai 1806|=
12er Mai 1806|1806-5-12
le 12 septembre 1806|1806-9-12
12 7bris 1806|1806-9-12
12. 10bris 1806|1806-12-12
7bris 12 1806|1806-9-12
7 bris 12 1806|1806-9-12
12 d'août 1806|1806-8-12
12 d\u{2019}août 1806|=
12 Ventôse 1806|=
12 Tischri 1806|=
1806|=
Mai 1806|=
12 Mai|=
|=
ca. 1750|=
1806?|=
12 Mai 1806?|=
[12 Mai 1806]|=
10.2.1700/01|=
12.-13. Mai 1806|=
12. Mai 1806 13|=
1806 Mai 1807|=
Mai 1806 1807|=
12 Mai 13|
12. Mai 06|
12.5.06|
12.5.006|6-5-12
12.5.0035|35-5-12
0035-5-12|=
35-5-12|
99-5-12|
100-5-12|=
5-12-1806|1806-12-5
5-12-806|806-12-5
5-12-86|
500-12-806|=
1806-5|=
1806-5-12-3|=
1806--5--12|=
1806-5-12.|1806-5-12
-44-3-15|=
\u{a0}-44-3-15 |-44-3-15
-44.3.15|=
–44-3-15|=
- 44-3-15|=
-4-3-1500|=
1234567890-1-1|=
12.5.1234567890|=
06-1234567890-12|=
123456789-1-1|=
12.5.123456789|123456789-5-12
1806-005-12|=
1806.005.12|=
12.005.1806|=
1806 V XII|1806-5-12
12. 5. MDCCC|1800-5-12
12. 5. C|100-5-12
12. 5. XCIX|
12. 5. MMMM|=
0-5-12|
00.00.0000|0-0-0
1806\r5\t12|1806-5-12
12&5&1806|=
12.5.1806*|=
12. Mai 1806 n. Chr.|=
Mai 12 13|
1806 12 Mai|=
Mai 1806 12|=
12 1806 Mai|=
12 Mai Mai 1806|=
#gregorian year refuse refuse day-of-mark
12. 5. 1806|=
1806–5–12|1806-5-12
1806.5.12|1806-5-12
12-5-1806|
6.5.12|
12 Mai 1806|1806-5-12
1806 Mai 12|1806-5-12
12 Mai 06|
Mai 12 06|
12.5.0035|=
#gregorian year keep refuse day-of-mark
6.5.12|6-5-12
12 Mai 06|12-5-6
Mai 12 06|6-5-12
12-5-1806|=
 12-05-06 |12-05-06
12–05–06|12-5-6
#gregorian month refuse refuse day-of-mark
May 12, 1806|1806-5-12
5/12/1806|1806-5-12
5-12-1806|1806-5-12
12 May 1806|1806-5-12
5/12/06|
1806/5/12|1806-5-12
1806/12/5|1806-12-5
#gregorian day 1800 refuse day-of-mark
12.5.06|1806-5-12
12-05-06|1812-5-6
12–05–06|1812-5-6
12. Mai 06|1806-5-12
Mai 12, 06|1806-5-12
12. V. 6|1806-5-12
12.5.VI|1806-5-12
8-II-18|1818-2-8
12.5.0006|6-5-12
99-1-1|1899-1-1
-6-5-12|=
12.5.1806|1806-5-12
5-6-007|7-6-5
06-1234567890-12|=
#gregorian month 1900 refuse day-of-mark
5/12/06|1906-5-12
5-12-06|1905-12-6
May 12 06|1906-5-12
#julian day refuse refuse day-of-mark
30-11-1699|1699-11-30
8-2-18|
12.5.06|
ca. 1750|=
Mai 1806|=
10.2.1700/01|=
12 Mai 1806?|=
-44-3-15|=
12. 10bris 1699|1699-12-12
Dom. Oculi 1699|1699-3-12
Freitag Oculi 1699|=
Oculi|=
Oculi 99|
Ostern 1712|1712-4-20
Ostern 0|
Ostern 10000|=
in festo S. Michaelis 1389|1389-9-29
Freitag nach St. Michael 1389|1389-10-1
Freitag vor St. Michael 1389|1389-9-24
Freitag Michaelis 1389|=
feria secunda post Oculi 1431|1431-3-5
vigilia Nativitatis 1389|1389-12-24
in crastino Nativitatis 1389|1389-12-26
in octava Nativitatis 1389|=
in octava Epiph. 1389|1389-1-13
2. Sonntag nach Epiph. 1389|1389-1-17
3 Oculi 1699|=
3 post Oculi 1699|=
post Oculi 1699|=
Ostern Oculi 1699|=
3 Mai Oculi 1699|=
1699 Oculi|=
Freitag in octava Epiph. 1389|=
#gregorian day 1700 refuse day-of-mark
Ostern 1712|1712-3-27
Ostern 12|1712-3-27
Ostern 1389|=
Quasimodogeniti 1712|1712-4-3
Dom. 3 p. Trin. 1723|1723-6-13
3. Sonntag nach Trinitatis 1723|1723-6-13
3. Freitag nach Trinitatis 1723|=
Freitag nach Trinitatis 1723|1723-5-28
3 p. Trin. 1723|1723-6-13
27. Sonntag nach Trinitatis 1723|=
27. Sonntag nach Trinitatis 1731|1731-11-25
257 p. Trin. 1723|=
1. Advent 1650|1650-11-27
Dom. 1 Advent 1650|1650-11-27
5. Advent 1650|=
Advent 1650|=
Montag, 12. Mai 1806|1806-5-12
12. Mai 1806, Montag|1806-5-12
Freitag, 12. Mai 1806|=
12. Mai 1806, Freitag|=
Freitag Freitag 12. Mai 1806|=
Mittwoch 12.5.06|1706-5-12
Freitag 12.5.06|=
#hebrew day refuse refuse day-of-mark
Ostern 5507|=
#french day refuse refuse day-of-mark
8-2-18|=
8.2.18|18-2-8
8-II-18|18-2-8
8.II.18|18-2-8
15 Ventôse an VI|6-6-15
15 ventôse an 6|6-6-15
1er Ventôse an VII|7-6-1
le 3 jours complémentaires an II|2-13-3
15 Mai an VI|=
VI. 6. 15|15-6-6
3 vendémiaire 12|12-1-3
#hebrew day refuse refuse day-of-mark
5 Tischri 507|
5 Tischri 5507|5507-7-5
7 Adar II 5603|5603-13-7
7 Adar I 5603|5603-12-7
7 Adar 5603|=
7. Menachem Aw 5603|5603-5-7
507-7-5|
0507-7-5|=
5.7.507|
99-7-5|
5 Mai 5507|=
#hebrew day refuse keep day-of-mark
5 Tischri 507|507-7-5
507-07-05|=
#hebrew day refuse 5000 day-of-mark
5 Tischri 507|5507-7-5
507-07-05|5507-7-5
5.7.1507|1507-7-5
5 Nisan 1|5001-1-5
#islamic day refuse refuse day-of-mark
3 Ramadan 1200|1200-9-3
3 Rabi I 1200|1200-3-3
3 Rabi II 195|195-4-3
3. Dhu al-Hijja 1300|1300-12-3
3 DHU AL HIJJA 1300|1300-12-3
12-9-3|
012-9-3|=
3.9.12|
3.9.112|112-9-3
#coptic day refuse refuse day-of-mark
1 Thout 1500|1500-1-1
5 Nasie 1499|1499-13-5
1 Meskerem 1500|=
#ethiopic day refuse refuse day-of-mark
1 Meskerem 1900|1900-1-1
#egyptian day refuse refuse day-of-mark
3.4.747|747-4-3
3 Mai 747|=
#armenian day refuse refuse day-of-mark
1-2-3|
3.2.1|
3.2.0101|101-2-3
#roman day refuse refuse day-of-mark
III. Kal. Nov. 1582|1582-11-K3
III Kal Nov MDLXXXII|1582-11-K3
Kal. Ian. 1499|1499-1-K1
pridie Kal. Ian. 1500|1500-1-K2
Non. Mai 1500|1500-5-N1
VIII Id. Mai. 1500|1500-5-I8
XVI. Kal. Ian. 1499|1499-1-K16
1500-1-K16|=
12. Mai 1500|=
12.5.1500|=
3 Kal 1500|=
Kal Ian|=
III Kal Nov 82|82-11-K3
-45-1-K2|=
#roman day refuse refuse charters
XVI. Kal. Ian. 1499|1500-1-K16
Kal. Ian. 1499|1499-1-K1
2 Kal Ian 1499|1500-1-K2
1 Kal Ian 1499|1499-1-K1
XVI Kal Mai 1499|1499-5-K16
IV Non Ian 1499|1499-1-N4
#julian day refuse refuse day-of-mark
12th of 5th mo. 1701|=
Jan 1710/11|=
1. Sonntag im Mai 1806|1806-5-6
15.3.-144|=
15. März -144|=
15.3.144|144-3-15
Samstag, 12. Mai 1806|1806-5-12
Montag, 12. Mai 1806|=
Feb 1735/6|=
Mai 1806-12|=
Donnerstag 29. Feb 1700|1700-2-29
Freitag 29. Feb 1700|=
#gregorian day refuse refuse day-of-mark
1. Sonntag im Mai 1806|1806-5-4
1. Sonntag Mai 1806|1806-5-4
Sonntag 1. Mai 1806|=
Donnerstag 1. Mai 1806|1806-5-1
Donnerstag, den 1. Mai 1806|1806-5-1
1. Mai 1806 Donnerstag|1806-5-1
1. Mai 1806, Sonntag|=
2nd Tuesday of June 1801|=
1st Tuesday of June 1801|1801-6-2
1 Tuesday of June 1801|1801-6-2
3 Tuesday of June 1801|1801-6-16
2e dimanche de mai 1790|=
1e dimanche de mai 1790|1790-5-2
3e dimanche de mai 1790|1790-5-16
2e dimanche de mai 1791|1791-5-8
5. Sonntag im Mai 1790|1790-5-30
5. Sonntag im Mai 1806|=
5. Donnerstag Mai 1806|1806-5-29
5. Mittwoch Mai 1799|1799-5-29
6. Sonntag im Mai 1806|=
0 Sonntag im Mai 1806|=
001 Sonntag im Mai 1806|=
I. Sonntag im Mai 1806|1806-5-4
1. Sonntag im Mai 06|
12. Sonntag Mai 1806|=
12. Montag Mai 1806|=
12 Mai Montag 1806|=
1806 Montag Mai 12|=
Mai, 1. Sonntag 1806|=
1. Sonntag 5. 1806|=
1. Sonntag V 1806|=
Montag Montag 12. Mai 1806|=
Montag 12. Mai 1806 Montag|=
Montag 1806 Mai 12|1806-5-12
Montag Mai 12 1806|1806-5-12
Montag, 1806-05-12|1806-5-12
1806-05-12 Montag|1806-5-12
Dienstag, 1806-05-12|=
Montag 31. April 1801|=
31. April 1801|1801-4-31
Freitag 31.12.9999|9999-12-31
Samstag 1.1.10000|=
Montag 12. 5. 123456789|=
Montag, Ostern 1712|=
Sonntag, Ostern 1712|1712-3-27
Jan 1710/11|=
Feb 1735/6|=
Mai 1806-12|=
Mai 12, 1806|1806-5-12
Mai 012 1806|=
Mai C 1806|=
Mai XII 1806|1806-5-12
1806/5|=
15.3.-144|=
15. März -144|=
15. März - 144|144-3-15
15-März-144|144-3-15
15.3. -144|=
15.3.\u{2212}144|=
15.3/\u{2013}144|=
15 -3 144|=
15 - 3 - 144|144-3-15
15,-3,144|=
12.V.1790|1790-5-12
003 p. Trin. 1723|=
#gregorian month refuse refuse day-of-mark
12.V.1790|1790-5-12
V.12.1790|1790-5-12
12.5.1790|1790-12-5
12 V 1790|1790-5-12
1790.V.12|1790-5-12
12.C.1790|=
12.Mai.1790|1790-5-12
1. Sonntag im Mai 1806|1806-5-4
2nd Tuesday of June 1802|1802-6-8
XII.V.1790|1790-12-5
#gregorian year refuse refuse day-of-mark
12.V.1790|1790-5-12
1790.V.12|1790-5-12
12. 5. 1790|=
12 Mai 1790|1790-5-12
Mai 12 1790|1790-5-12
1. Sonntag im Mai 1806|1806-5-4
Mai 1790 12|=
#gregorian year keep refuse day-of-mark
8-V-12|8-5-12
#gregorian month keep refuse day-of-mark
8-V-12|12-5-8
#french day refuse refuse day-of-mark
18 Brumaire 1799|=
18 Brumaire an VIII|8-2-18
18 Brumaire 99|99-2-18
18 Brumaire 100|=
18.2.1799|=
1799-2-18|=
18-2-1799|=
Montag 15 Ventôse an VI|6-6-15
Dienstag 15 Ventôse an VI|=
#republican day refuse refuse day-of-mark
18 Brumaire 1799|=
18 Brumaire 8|8-2-18
18.2.1799|=
#hebrew day refuse refuse day-of-mark
Montag 5 Tischri 5507|5507-7-5
Dienstag 5 Tischri 5507|=
1 Sonntag Tischri 5507|5507-7-4
#hebrew day refuse 5000 day-of-mark
Montag 5 Tischri 507|5507-7-5
#islamic day refuse refuse day-of-mark
Freitag 3 Ramadan 1200|1200-9-3
Sonntag 3 Ramadan 1200|=
#coptic day refuse refuse day-of-mark
Mittwoch 1 Thout 1500|1500-1-1
Montag 1 Thout 1500|=
#roman day refuse refuse day-of-mark
Sonntag III. Kal. Nov. 1582|=
Kal. Ian. -45|=
#iso day 1800 refuse day-of-mark
1945-W46-1|=
12.5.06|=
12 Mai 1806|=
#longcount day refuse refuse day-of-mark
12.16.11.16.9|=
12.5.1806|=
#none day refuse refuse day-of-mark
12.5.1806|=
 1806-05-12\u{a0}|=
";

/// Signs between numbers, days of decades, and numbers in words.
pub(super) const JOINED: &str = "\
#gregorian day refuse refuse day-of-mark
5-6.1806|=
5.6-1806|=
5/6.1806|=
5/6-1806|=
1806/5-12|=
1806, 12.5.|=
5.6,1806|=
5-6 1806|=
5 6/1806|=
12 5 1806|1806-5-12
12.5 1806|1806-5-12
12 5.1806|1806-5-12
12. 5. 1806.|1806-5-12
12/5/1806|1806-5-12
12-5-1806|1806-5-12
12 – 5 – 1806|1806-5-12
12–5-1806|1806-5-12
12–5.1806|=
1806/5/12|1806-5-12
Montag, 12.5.1806|1806-5-12
12.5.1806, Montag|1806-5-12
Mo., 12/5/1806|1806-5-12
XII-V.1806|=
12-Mai-1806|1806-5-12
12-Mai 1806|1806-5-12
12. Mai, 1806|1806-5-12
Mai 12/1806|1806-5-12
May 12, 1806|1806-5-12
le vingt-trois mai mil huit cent six|1806-5-23
le vingt-trois mai mil huit cent vingt-trois|1823-5-23
Montag, le 12 mai mil huit cent six|1806-5-12
May 12, eighteen hundred six|1806-5-12
12 May eighteen hundred|1800-5-12
12 May eighteen hundred 6|=
12 May 1800 six|=
12 May MDCCC six|=
vingt trois mai vingt trois|=
le vingt-trois mai 23|
vingt et un mai 1806|=
vingt trois six mai 1806|=
#gregorian day 1800 refuse day-of-mark
Mai 10/11|=
Mai 10-11|=
Mai 10 – 11|=
Mai 10, 11|1811-5-10
Mai 10 11|1811-5-10
12-5-06|1812-5-6
12/5/06|1806-5-12
12.5-06|=
May eighteen twelve|=
twelve May eighteen|=
May 18 twelve|=
May eighteen 12|1812-5-18
May eighteen hundred twelve|=
twelve May eighteen hundred|1800-5-12
#republican day refuse refuse day-of-mark
décadi 20 Brumaire an VIII|8-2-20
primidi 21 Brumaire an VIII|8-2-21
20 Brumaire an VIII, décadi|8-2-20
quintidi, 25.2.8|8-2-25
primidi 20 Brumaire an VIII|=
2 décadi Brumaire an VIII|=
quintidi 5 jours complémentaires an VII|=
5 jours complémentaires an VII|7-13-5
12 Brumaire VIII an|=
18 Brumaire an IIII|4-2-18
18 Brumaire 1799|=
#republican year refuse refuse day-of-mark
18 Brumaire an VIII|8-2-18
18 Brumaire an 8|8-2-18
an 8 Brumaire 18|8-2-18
8 Brumaire 18|8-2-18
18.2. an 8|=
#julian day refuse refuse day-of-mark
die 3 Martii 1712|1712-3-3
3 die Martii 1712|1712-3-3
3 p. Trin. 1723|1723-6-30
die 3 p. Trin. 1723|=
3. Tag des Advent 1712|=
3. Advent 1712|1712-12-14
die Michaelis 1389|1389-9-29
die Montag, 12. 5. 1806|=
die Samstag, 12. 5. 1806|1806-5-12
die 1806 Mai 12|=
12 Mai 1806 roku|1806-5-12
12 Mai roku 1806|1806-5-12
12.5. anno 1806|1806-5-12
12. Mai anno 6|6-5-12
anno 1712 Ostern|=
Ostern anno 1712|1712-4-20
#gregorian day 1800 refuse day-of-mark
12. Mai anno 6|1806-5-12
#julian day 1800 refuse day-of-mark
5 de Mai, era de 1381|1343-5-5
5 Mai era MCCCLXXXI|1343-5-5
era 1381 Mai 5|1343-5-5
5 Mai 1381 era|1343-5-5
5 Mai 81 era|=
5 Mai era 1460|1422-5-5
5 Mai era 1461|=
5 Mai era 38|=
5 Mai era 39|1-5-5
Ostern era 1381|1343-4-13
Dienstag 5 Mai era 1381|=
Montag 5 Mai era 1381|1343-5-5
7157 года от сотворения мира сентября 1|1648-9-1
31 августа 7157 года от сотворения мира|1649-8-31
1 сентября 7208 от сотворения мира|1699-9-1
1 сентября 7209 от сотворения мира|=
1 сентября 5508 от сотворения мира|=
31 августа 5509 от сотворения мира|1-8-31
Ostern 7157 от сотворения мира|=
2. Montag сентября 7157 от сотворения мира|1648-9-11
#french day refuse refuse day-of-mark
décadi 20 ventôse an 6|6-6-20
primidi 20 ventôse an 6|=
";

/// Texts that end with a time of day.
pub(super) const TIMES: &str = "\
#gregorian day refuse refuse day-of-mark
1806-05-12 00:00:00|1806-05-12
1806-05-12 00:00:00.000|1806-05-12
1806-05-12T14:30|1806-05-12
1806-05-12T14:30:59|1806-05-12
1806-05-12T14|=
1806-05-12t14:30|=
1806-05-12T14:30Z|=
1806-05-12T14:30+01:00|=
1806-05-12 24:00|1806-05-12
1806-05-12 25:00|=
1806-05-12 14:60|=
1806-05-12 14:30:60|=
1806-05-12 4:3|=
1806-05-12 4:30|1806-05-12
1806-05-12 14:30:|=
1806-05-12 14:30.5|=
12.5.1806 14:30|1806-5-12
12.5.1806 14:30 |1806-5-12
12.5.1806\t14:30|1806-5-12
12.5.1806 14.30|=
12.5.1806 14.30 Uhr|1806-5-12
12.5.18:06|=
12 5 18:06|=
12. Mai 1806, 10 Uhr|1806-5-12
12. Mai 1806,10 uhr|1806-5-12
12. Mai 1806 10 UHR|1806-5-12
12. Mai 1806 10-12 Uhr|=
12. Mai 1806 Uhr|=
12 May 1806, 3 p.m.|1806-5-12
12 May 1806 3 PM|1806-5-12
12 May 1806 3pm|1806-5-12
12 May 1806, 3.30 a.m.|1806-5-12
12 May 1806 3 p.m|=
12/5/1806 12:00:00 AM|1806-5-12
12 septembre 1806, 10 h|1806-9-12
12 septembre 1806, 10h30|=
Montag, 12. Mai 1806 10 Uhr|1806-5-12
Sonntag, 12. Mai 1806 10 Uhr|=
Ostern 1712 10 Uhr|1712-3-27
Mai 1806 10:00|=
12. Mai 10 Uhr|=
12. Mai 06 10:00|
31.4.1801 10:00|1801-4-31
-44-3-15 10:00|=
10 Uhr|=
#gregorian month refuse refuse day-of-mark
5/12/1806 12:00:00 AM|1806-5-12
#gregorian year refuse refuse day-of-mark
12.5.1806 14:30|=
1806.5.12 14:30|1806-5-12
#gregorian day 1800 refuse day-of-mark
12. Mai 06 10:00|1806-5-12
#julian day refuse refuse day-of-mark
12. Mai 1706, 10 Uhr|1706-5-12
#republican day refuse refuse day-of-mark
18 Brumaire an VIII, 10 h|8-2-18
#hebrew day refuse refuse day-of-mark
5 Tischri 5507|5507-7-5
5 Tischri 5507 10:00|=
#roman day refuse refuse day-of-mark
Id Mai 1806|1806-5-I1
Id Mai 1806 10 Uhr|=
#iso day refuse refuse day-of-mark
1806-05-12 10:00|=
#none day refuse refuse day-of-mark
1806-05-12 10:00|=
";
