//! Texts, and the first and the last day that each can mean, a line of a table each.

/// After a sign `#`: a calendar, the order, what is done with short years and with short Hebrew ones. Below it: a text,
/// its first day, its last day, `=` where that is the text, and its marks. The answers were found by hand.
pub(crate) const SPANS: &str = "\
#gregorian day refuse refuse
12. Mai 1806|1806-5-12|1806-5-12|
1806-05-12|=|=|
 1806-05-12 |1806-05-12|1806-05-12|
-44-3-15|=|=|
12.5.06|||
Mai 1806|1806-5-1|1806-5-31|
im Mai 1806|1806-5-1|1806-5-31|
1806 Mai|1806-5-1|1806-5-31|
Februar 1900|1900-2-1|1900-2-28|
Februar 2000|2000-2-1|2000-2-29|
1806|1806-1-1|1806-12-31|
MDCCCVI|1806-1-1|1806-12-31|
5.1806|1806-5-1|1806-5-31|
05/1806|1806-5-1|1806-5-31|
V 1806|1806-5-1|1806-5-31|
13.1806|1806-13-1|1806-13-0|
1806-05|=|=|unread
1806.05|=|=|unread
Mai 06|=|=|unread
06|=|=|unread
im Jahr 75|75-1-1|75-12-31|
im Jahr 175|175-1-1|175-12-31|
12.5. Jahr 1806|1806-5-12|1806-5-12|
12. Mai 1806 Jahr|1806-5-12|1806-5-12|
12. Mai Jahr 75|75-5-12|75-5-12|
Frühjahr 1806|1806-3-1|1806-5-31|
1806 Frühjahr|1806-3-1|1806-5-31|
Frühjahr 06|=|=|unread
12. Frühjahr 1806|=|=|unread
Frühjahr - Herbst 1806|1806-3-1|1806-11-30|
ca. Frühjahr 1806|1806-3-1|1806-5-31|about
vor Frühjahr 1806||1806-02-28|before
nach Frühjahr 1806|1806-06-01||after
18. Jh.|1701-1-1|1800-12-31|
Jh. XVIII|1701-1-1|1800-12-31|
18. saec.|1700-1-1|1799-12-31|
17.-18. Jh.|1601-1-1|1800-12-31|
1. Jh.|=|=|unread
30. Jh.|2901-1-1|3000-12-31|
31. Jh.|=|=|unread
vor 18. Jh.||1700-12-31|before
1790s|1790-1-1|1799-12-31|
um 1790s|1790-1-1|1799-12-31|about
1790s bis 1810s|1790-1-1|1819-12-31|
1800s|=|=|unread
Anfang 1790|1790-1-1|1790-4-30|
Mitte 1790|1790-5-1|1790-8-31|
Ende 1790|1790-9-1|1790-12-31|
1. Hälfte 1790|1790-1-1|1790-6-30|
4. Viertel 1790|1790-10-1|1790-12-31|
Anfang 18. Jh.|1701-1-1|1733-12-31|
Mitte 18. Jh.|1734-1-1|1766-12-31|
Ende 18. Jh.|1767-1-1|1800-12-31|
1. Hälfte 18. Jh.|1701-1-1|1750-12-31|
4. Viertel 18. saec.|1775-1-1|1799-12-31|
Anfang Jh. XVIII|1701-1-1|1733-12-31|
Anfang Mai 1790|=|=|unread
1790 Anfang|=|=|unread
Anfang - Mitte 1790|1790-1-1|1790-8-31|
Ultimo März 1763|1763-3-31|1763-3-31|
Ultimo Februar 1764|1764-2-29|1764-2-29|
Ultimo März 63|=|=|unread
Ultimo 3. März 1763|=|=|unread
bis Ultimo März 1763||1763-3-31|to
vor Ultimo März 1763||1763-03-30|before
1795s|=|=|unread
10/22 stycznia 1863|1863-1-22|1863-1-22|
29.12.1863/10.1.1864|1864-1-10|1864-1-10|
12./22. Mai 1632|1632-5-22|1632-5-22|
12/24.5.1806|1806-5-24|1806-5-24|
10/22 stycznia 1863?|1863-1-22|1863-1-22|uncertain
[10/22 stycznia 1863]|1863-1-22|1863-1-22|inferred
10/23 stycznia 1863|=|=|unread
1/2 Mai 1812|=|=|unread
o. D.|||undated
o. D.?|||undated uncertain
[o. D.]|||undated inferred
o. D. 1806|=|=|unread
Mai|=|=|unread
12 Mai|=|=|unread
Mai 99999|99999-5-1|99999-5-31|
Mai 100000|||
ca. 1750|1750-1-1|1750-12-31|about
um 1750|1750-1-1|1750-12-31|about
ABT 1750|1750-1-1|1750-12-31|about
1750~|1750-1-1|1750-12-31|about
1750?|1750-1-1|1750-12-31|uncertain
1750%|1750-1-1|1750-12-31|about uncertain
ca. 1750 ?|1750-1-1|1750-12-31|about uncertain
12.5.1806?|1806-5-12|1806-5-12|uncertain
12 Mai 1806 ? |1806-5-12|1806-5-12|uncertain
1806-05-12?|1806-05-12|1806-05-12|uncertain
Mai 1806?|1806-5-1|1806-5-31|uncertain
Mai 1806??|=|=|unread
180?|=|=|unread
12.5.180?|=|=|unread
180 ?|180-1-1|180-12-31|uncertain
180(?)|180-1-1|180-12-31|uncertain
180~|180-1-1|180-12-31|about
11806?|11806-1-1|11806-12-31|uncertain
14. Mai 1763 (?)|1763-5-14|1763-5-14|uncertain
12. Mai 1744 ?|1744-5-12|1744-5-12|uncertain
1763-05-14(?) |1763-05-14|1763-05-14|uncertain
um 1750 (?)|1750-1-1|1750-12-31|about uncertain
Mai 1806 (~)|1806-5-1|1806-5-31|about
1806(%)|1806-1-1|1806-12-31|about uncertain
1750 ?(?)|=|=|unread
1750 (?)?|=|=|unread
1750 (? )|=|=|unread
1750 (??)|=|=|unread
1750 (|=|=|unread
1750 ()|=|=|unread
1750 ?)|=|=|unread
1750- (?)|=|=|unread
(?)|=|=|unread
12. Mai (1806?)|=|=|unread
(Mai 1806)|=|=|unread
12. Mai [1706]|1706-5-12|1706-5-12|inferred
[12. Mai] 1744|1744-5-12|1744-5-12|inferred
 [12 Mai 1706] |1706-5-12|1706-5-12|inferred
17[06]|1706-1-1|1706-12-31|inferred
[Mai] 1806|1806-5-1|1806-5-31|inferred
1806-05-[12]|1806-05-12|1806-05-12|inferred
[1806]-05-12|1806-05-12|1806-05-12|inferred
[1706?]|1706-1-1|1706-12-31|uncertain inferred
[1706]?|1706-1-1|1706-12-31|uncertain inferred
[1706] (?)|1706-1-1|1706-12-31|uncertain inferred
[1706 (?)]|1706-1-1|1706-12-31|uncertain inferred
12. Mai 1706 [?]|1706-5-12|1706-5-12|uncertain inferred
[1706?]?|=|=|unread
[um 1750]|1750-1-1|1750-12-31|about inferred
[um 1750?]|1750-1-1|1750-12-31|about uncertain inferred
[vor] 1750||1749-12-31|before inferred
[1750-1755]|1750-1-1|1755-12-31|inferred
1750-[1755]|1750-1-1|1755-12-31|inferred
[12.5.06]|||inferred
12. Mai 1806, [10 Uhr]|1806-5-12|1806-5-12|inferred
12. Mai 1806 [14:30]|1806-5-12|1806-5-12|inferred
12. Mai [|=|=|unread
12. Mai 1806]|=|=|unread
12. Mai 1806 []|=|=|unread
12. Mai 1806 [ ]|=|=|unread
]12. Mai 1806[|=|=|unread
[12.] Mai [1806]|=|=|unread
[[12. Mai 1806]]|=|=|unread
[12. [Mai] 1806]|=|=|unread
{12. Mai} 1806|=|=|unread
[Maj] 1806|=|=|unread
[1806-5-12 - 1806-5-3]|=|=|unread
[1706][?]|=|=|unread
[sic] 1806|=|=|unread
[..1806|=|=|unread
[1750..1755]|=|=|unread
?|=|=|unread
1750-|=|=|unread
1750-?|=|=|unread
Mai 1806 - ?|=|=|unread
12.5.1806 - ?|=|=|unread
12.5.1806 -|=|=|unread
1806/|=|=|unread
/1806|=|=|unread
1806/?|=|=|unread
1806.|1806-1-1|1806-12-31|
M|=|=|unread
Mai M|=|=|unread
MC|1100-1-1|1100-12-31|
|=|=|unread
um den 12. Mai 1806|1806-5-12|1806-5-12|about
1750-1755|1750-1-1|1755-12-31|
1750–1755|1750-1-1|1755-12-31|
1750 bis 1755|1750-1-1|1755-12-31|
ca. 1750-1755|1750-1-1|1755-12-31|about
1750 - um 1755|1750-1-1|1755-12-31|about
zwischen 1750 und 1755|1750-1-1|1755-12-31|between
BET 1750 AND 1755|1750-1-1|1755-12-31|between
FROM 1750 TO 1755|1750-1-1|1755-12-31|
von 1750-1755|1750-1-1|1755-12-31|
zw. 1750 - 1755|1750-1-1|1755-12-31|between
zw. 1.1.1750 u. 3.2.1750|1750-1-1|1750-2-3|between
1750 und 1755|=|=|unread
zw. 1750|=|=|unread
1755-1750|=|=|unread
1750-1750|1750-1-1|1750-12-31|
1750-55|=|=|unread
1750-1755-1760|=|=|
12.-14. Mai 1806|1806-5-12|1806-5-14|
12.-14.5.1806|1806-5-12|1806-5-14|
12. bis 14. Mai 1806|1806-5-12|1806-5-14|
12.5.1806 - 13.5.1806|1806-5-12|1806-5-13|
28. April - 3. Mai 1806|1806-4-28|1806-5-3|
28.4.-3.5.1806|1806-4-28|1806-5-3|
28.12.1805 bis 3. Januar 1806|1805-12-28|1806-1-3|
April-Mai 1806|1806-4-1|1806-5-31|
Mai 1806 bis Juni 1807|1806-5-1|1807-6-30|
1750 bis Mai 1755|1750-1-1|1755-5-31|
Mai - 12. Juni 1806|=|=|unread
14.-12. Mai 1806|=|=|unread
31.4.1801 bis 5.5.1801|1801-4-31|1801-5-5|
1806-05-12 bis 1806-06-01|1806-5-12|1806-6-1|
12.5.06 bis 14.5.06|=|=|unread
vor 12.5.1806||1806-05-11|before
vor Mai 1806||1806-04-30|before
BEF MAY 1806||1806-04-30|before
vor 1806||1805-12-31|before
vor ca. 1806||1805-12-31|before about
vor 1.1.1806?||1805-12-31|before uncertain
vor 31.4.1801||1801-4-31|before
nach 1800|1801-01-01||after
nach 31.12.1800|1801-01-01||after
AFT MAY 1806|1806-06-01||after
nach 31.12.9999|||after
seit 1800|1800-1-1||from
FROM 1800|1800-1-1||from
bis 1800||1800-12-31|to
TO MAY 1800||1800-5-31|to
vor|=|=|unread
vor -44-3-15|=|=|unread
vor nach 1800|=|=|unread
1699/1700|1699-1-1|1700-12-31|
1806/07|1806-1-1|1807-12-31|
1806/08|=|=|unread
1999/00|1999-1-1|2000-12-31|
10.2.1700/01|=|=|unread
10.2.1660/1|=|=|unread
10.2.1648-9|=|=|unread
10 Feb 1648-49|=|=|unread
Feb 1700/01|=|=|unread
12.5.1806*|=|=|unread
12.5/6.1806|=|=|unread
12/5 1806|=|=|unread
5-6.1806|1806-5-1|1806-6-30|
28/4-3/5/1806|1806-4-28|1806-5-3|
12/3 - 14 Mai 1806|=|=|unread
28.4 bis 3.5.1806|1806-4-28|1806-5-3|
28/4 bis 3/5/1806|1806-4-28|1806-5-3|
1806/5/12 bis 1806/6/1|1806-5-12|1806-6-1|
7/8 1806 bis 9/10 1806|=|=|unread
1750 -1755|1750-1-1|1755-12-31|
um -144|=|=|unread
vor -144|=|=|unread
15.3. -144|=|=|unread
15. März -144|=|=|unread
vor -144-3-15|=|=|unread
um - 144 - 150|=|=|unread
Montag, 12. Mai 1806|1806-5-12|1806-5-12|
Sonntag, 12. Mai 1806|=|=|unread
Montag, 12. Mai - Mittwoch, 14. Mai 1806|1806-5-12|1806-5-14|
Montag, 12. - Mittwoch, 14. Mai 1806|1806-5-12|1806-5-14|
Montag 12. bis 14. Mai 1806|1806-5-12|1806-5-14|
Dienstag 12. bis 14. Mai 1806|=|=|unread
12. bis Mittwoch 14. Mai 1806|1806-5-12|1806-5-14|
12. bis Dienstag 14. Mai 1806|=|=|unread
vor Montag, 12. Mai 1806||1806-05-11|before
vor Sonntag, 12. Mai 1806|=|=|unread
Montag, Mai 1806|=|=|unread
12ten 1806|=|=|unread
12. Tag 1806|=|=|unread
den 12ten - 14ten Mai 1806|1806-5-12|1806-5-14|
1806-05-12 - 1806-05-14|1806-5-12|1806-5-14|
1806-05-12 – 1806-05-14|1806-5-12|1806-5-14|
12-5-1806 - 14-5-1806|1806-5-12|1806-5-14|
1806-05-14 - 1806-05-12|=|=|unread
1806-05-12 - 14|=|=|unread
1806-05-12 - 1806-05-14 - 1806-05-16|=|=|unread
#gregorian day 1800 refuse
im Jahr 75|1875-1-1|1875-12-31|
06|=|=|unread
12.5.06|1806-5-12|1806-5-12|
#gregorian year refuse refuse
1806-05|1806-5-1|1806-5-31|
1806.05|1806-5-1|1806-5-31|
1806/05|=|=|unread
1806/07|1806-1-1|1807-12-31|
05.1806|=|=|unread
1806-05-12 bis 1806-06-01|1806-5-12|1806-6-1|
12.-14.5.1806|=|=|unread
1806-05 - 1806-07|1806-5-1|1806-7-31|
1806-1807|1806-1-1|1807-12-31|
#gregorian month refuse refuse
5/1806|1806-5-1|1806-5-31|
5/12/1806 - 5/14/1806|1806-5-12|1806-5-14|
May 12-14, 1806|=|=|unread
#julian day refuse refuse
era 1381|1343-1-1|1343-12-31|
Mai era 1381|1343-5-1|1343-5-31|
5.-7. Mai era 1381|1343-5-5|1343-5-7|
era 1381-1385|=|=|unread
1381 bis era 1385|=|=|unread
era 1381 bis era 1385|1343-1-1|1347-12-31|
vor era 1381||1342-12-31|before
Frühjahr era 1381|1343-3-1|1343-5-31|
era 1461|=|=|unread
era 1381/44|=|=|unread
10/22 Januar 1863|1863-1-10|1863-1-10|
29.12.1863/10.1.1864|1863-12-29|1863-12-29|
1/2 Mai 1812|=|=|unread
era 1381/82|=|=|unread
Mai era 1381/4|=|=|unread
mundi 7157/58|=|=|unread
era 90|52-1-1|52-12-31|
7157 mundi|1648-9-1|1649-8-31|
Ultimo Feb 7157 mundi|1649-2-28|1649-2-28|
Anfang 7157 mundi|=|=|unread
Anfang era 1381|1343-1-1|1343-4-30|
mundi 7157|1648-9-1|1649-8-31|
Mai 7157 mundi|1649-5-1|1649-5-31|
September 7157 mundi|1648-9-1|1648-9-30|
Frühjahr 7157 mundi|1649-3-1|1649-5-31|
Herbst 7157 mundi|1648-9-1|1648-11-30|
Sommerhalbjahr 7157 mundi|=|=|unread
nach 7157 mundi|1649-09-01||after
7209 mundi|=|=|unread
Mai 1700|1700-5-1|1700-5-31|
Februar 1700|1700-2-1|1700-2-29|
vor 1.3.1700||1700-02-29|before
10 Feb 1700/01|1701-2-10|1701-2-10|
10.2.1700/1701|1701-2-10|1701-2-10|
10.2.1699/1700|1700-2-10|1700-2-10|
10.2.1699/00|1700-2-10|1700-2-10|
10.2.1699/02|=|=|unread
24. März 1700/01|1701-3-24|1701-3-24|
25. März 1700/01|=|=|unread
Feb 1700/01|1701-2-1|1701-2-28|
März 1700/01|=|=|unread
1699/1700|1699-1-1|1700-12-31|
um 1699/1700|1699-1-1|1700-12-31|about
10 Feb 1660/1|1661-2-10|1661-2-10|
10 Feb 1660[/1]|1661-2-10|1661-2-10|inferred
10 Feb [1660/61]|1661-2-10|1661-2-10|inferred
10.2.1688/9?|1689-2-10|1689-2-10|uncertain
um 10 Feb 1688/9|1689-2-10|1689-2-10|about
10 Feb 1660 / 1|1661-2-10|1661-2-10|
24. März 1660/1|1661-3-24|1661-3-24|
25. März 1660/1|=|=|unread
29 Feb 1659/0|=|=|unread
28 Feb 1699/0|=|=|unread
10 Feb 1660/2|=|=|unread
10 Feb 1660/0|=|=|unread
10 Feb 1660/01|=|=|unread
Feb 1660/1|1661-2-1|1661-2-28|
März 1660/1|=|=|unread
1660/1|=|=|unread
1660 Feb 1/1|=|=|unread
1663 Februar 3/4|=|=|unread
10 Feb 1660/1/2|=|=|unread
30 Januar 1648-9|1649-1-30|1649-1-30|
30 Januar 1648-49|1649-1-30|1649-1-30|
30.1.1648–9|1649-1-30|1649-1-30|
30 Januar 1648 - 49|=|=|unread
30 Januar 1648 -9|=|=|unread
30 Januar 1648-50|=|=|unread
30 April 1648-9|=|=|unread
28 Feb 1699-00|1700-2-28|1700-2-28|
29 Feb 1699-00|1700-2-29|1700-2-29|
Feb 1660-61|1661-2-1|1661-2-28|
1648-49|=|=|unread
1648-9|=|=|unread
30 Januar 1648-1649|1648-1-30|1649-12-31|
1648.01.30-49|=|=|unread
vor 1699/1700|=|=|unread
000|0-0-1|0-0-0|
#julian day 1800 refuse
era 90|52-1-1|52-12-31|
era CXX|82-1-1|82-12-31|
5.-7. Mai era 90|52-5-5|52-5-7|
#republican day refuse refuse
an VI|6-1-1|6-13-5|
an III|3-1-1|3-13-6|
Ventôse an 6|6-6-1|6-6-30|
jours complémentaires an III|3-13-1|3-13-6|
15 Ventôse an VI|6-6-15|6-6-15|
15-20 Ventôse an VI|6-6-15|6-6-20|
an II - an VI|2-1-1|6-13-5|
an II bis 15 Ventôse an VI|2-1-1|6-6-15|
VI|=|=|unread
Ventôse VI|=|=|unread
vor an II||0001-13-05|before
an 6/7|6-1-1|7-13-6|
1799|=|=|unread
Ventôse 1799|=|=|unread
1798-1799|=|=|unread
vor an I|||before
nach an VI|0007-01-01||after
#hebrew day refuse refuse
Frühjahr 5507|5507-3-1|5507-5-30|
Sommerhalbjahr 5507|=|=|unread
Anfang 5507|=|=|unread
Ultimo Tischri 5507|5507-7-30|5507-7-30|
Tischri 5507|5507-7-1|5507-7-30|
5507|5507-7-1|5507-6-29|
Adar II 5603|5603-13-1|5603-13-29|
Adar II 5602|5602-13-1|5602-13-0|
Adar I - Adar II 5603|5603-12-1|5603-13-29|
Adar 5507|5507-12-1|5507-12-29|
Adar 5603|5603-12-1|5603-13-29|
5507 Adar|5507-12-1|5507-12-29|
7 Adar 5507|5507-12-7|5507-12-7|
7 Adar 5603|=|=|unread
12.-14. Adar 5507|5507-12-12|5507-12-14|
12.-14. Adar 5603|=|=|unread
vor Adar 5603||5603-11-30|before
nach Adar 5603|5603-01-01||after
nach Adar 5507|5507-01-01||after
nach 7 Adar 5603|=|=|unread
Adar - Nissan 5603|5603-12-1|5603-1-30|
Adar|=|=|unread
vor Tischri 5603||5602-06-29|before
Adar II 5603 bis Tischri 5604|5603-13-1|5604-7-30|
507|||
#hebrew day refuse 5000
507|5507-7-1|5507-6-29|
#islamic day refuse refuse
Herbst 1241|1241-9-1|1241-11-30|
Ramadan 1241|1241-9-1|1241-9-30|
1241|1241-1-1|1241-12-29|
nach Ramadan 1241|1241-10-01||after
1240|1240-1-1|1240-12-30|
Ramadan 1240 - 1241|1240-9-1|1241-12-29|
#coptic day refuse refuse
1580|1580-1-1|1580-13-5|
Nasie 1579|1579-13-1|1579-13-6|
nach Nasie 1579|1580-01-01||after
3.1580 - 4.1580|1580-3-1|1580-4-30|
#ethiopic day refuse refuse
2000|2000-1-1|2000-13-5|
Pagumen 1999|1999-13-1|1999-13-6|
vor Meskerem 2000||1999-13-06|before
Meskerem 2000 bis 2001|2000-1-1|2001-13-5|
#egyptian day refuse refuse
2757|2757-1-1|2757-13-5|
13.2757|2757-13-1|2757-13-5|
nach 2757|2758-01-01||after
2757 - 2758|2757-1-1|2758-13-5|
#armenian day refuse refuse
1200|1200-1-1|1200-13-5|
5.1200 - 6.1200|1200-5-1|1200-6-30|
vor 5.1200||1200-04-30|before
#french day refuse refuse
an III|3-1-1|3-13-5|
an IV|4-1-1|4-13-6|
Ventôse an 6|6-6-1|6-6-30|
nach an III|0004-01-01||after
1799|=|=|unread
#roman day refuse refuse
1500-1-K16|=|=|
1320|=|=|
1320?|=|=|
#iso day refuse refuse
1945-W46-1|=|=|
1806|=|=|
#none day refuse refuse
Mai 1806|=|=|unread
#gregorian day refuse refuse
12.5.1806 14:30|1806-5-12|1806-5-12|
12.5.1806 14:30?|1806-5-12|1806-5-12|uncertain
1806-05-12T00:00:00|1806-05-12|1806-05-12|
12. Mai 1806, 10 Uhr|1806-5-12|1806-5-12|
12. Mai 06, 10 Uhr|||
Mai 1806 14:30|=|=|unread
10.2.1700/01 14:30|=|=|unread
12.5.1806 14:30 - 13.5.1806 15:30|=|=|unread
";
