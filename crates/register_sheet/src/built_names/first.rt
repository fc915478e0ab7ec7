//! The first third of the built-in list of names: names.csv, from which check/built-names writes this file.

/// The first third of the list.
pub const NAMES: &str = "\
name,means,in\nGregorian,gregorian,\ngregorianisch,gregorian,\ngregorianischer Kalender,gregorian,\ngreg.,gregorian,\ng\
reg,gregorian,\ngrégorien,gregorian,\ncalendrier grégorien,gregorian,\ngregoriaans,gregorian,\ngregoriaanse kalender,\
gregorian,\ngregoriano,gregorian,\ncalendario gregoriano,gregorian,\ngregoriański,gregorian,\nkalendarz gregoriański,\
gregorian,\ngregoriánský,gregorian,\ngregoriánský kalendář,gregorian,\nn. St.,gregorian,\nn.St.,gregorian,\nn. S.\
,gregorian,\nneuer Stil,gregorian,\nneuen Stils,gregorian,\nN.S.,gregorian,\nNS,gregorian,\nNew Style,gregorian,\nnouve\
au style,gregorian,\nnieuwe stijl,gregorian,\nstile nuovo,gregorian,\nnuevo estilo,gregorian,\nnowego stylu,gregorian,\
\nnowy styl,gregorian,\nnového stylu,gregorian,\nstilo novo,gregorian,\nstylo novo,gregorian,\nGregorian calendar,greg\
orian,\nJulian,julian,\njulianisch,julian,\njulianischer Kalender,julian,\njul.,julian,\njul,julian,\njulien,julian,\nc\
alendrier julien,julian,\njuliaans,julian,\njuliaanse kalender,julian,\ngiuliano,julian,\ncalendario giuliano,julian,\n\
juliano,julian,\ncalendario juliano,julian,\njuliański,julian,\nkalendarz juliański,julian,\njuliánský,julian,\njul\
iánský kalendář,julian,\na. St.,julian,\na.St.,julian,\na. S.,julian,\nalter Stil,julian,\nalten Stils,julian,\nO.S\
.,julian,\nO. S.,julian,\nOS,julian,\nOld Style,julian,\nvieux style,julian,\noude stijl,julian,\nstile vecchio,julian,\
\nestilo antiguo,julian,\nstarego stylu,julian,\nstary styl,julian,\nstarého stylu,julian,\nstilo vetere,julian,\nstyl\
o veteri,julian,\nJulian calendar,julian,\nboth,both,\nboth styles,both,\nold and new style,both,\nO.S./N.S.,both,\nO. \
S./N. S.,both,\nOS/NS,both,\nbeide Stile,both,\nalter und neuer Stil,both,\nalten und neuen Stils,both,\na./n. St.,both\
,\na./n.St.,both,\na. St./n. St.,both,\na.St./n.St.,both,\nles deux styles,both,\nvieux et nouveau style,both,\noude e\
n nieuwe stijl,both,\nstary/nowy,both,\nstary i nowy styl,both,\nstarego i nowego stylu,both,\nst. st./n. st.,both,\nst\
arý/nový,both,\nstarého i nového stylu,both,\nстарый/новый,both,\nстарый и новый стиль,\
both,\nстарого и нового стиля,both,\nпо старому и новому стилю,both,\nст. с\
т./н. ст.,both,\nст./н. ст.,both,\nза старим і новим стилем,both,\nstili veteris et novi,b\
oth,\nHebrew,hebrew,\nJewish,hebrew,\nhebräisch,hebrew,\njüdisch,hebrew,\njüdischer Kalender,hebrew,\nhébreu,hebrew\
,\njuif,hebrew,\nhébraïque,hebrew,\ncalendrier hébraïque,hebrew,\nhebreeuws,hebrew,\njoods,hebrew,\nebraico,hebrew,\
\nhebreo,hebrew,\njudío,hebrew,\nhebrajski,hebrew,\nżydowski,hebrew,\nhebrejský,hebrew,\nžidovský,hebrew,\nHebrew \
calendar,hebrew,\nJewish calendar,hebrew,\nIslamic,islamic,\nHijri,islamic,\nMuslim,islamic,\nislamisch,islamic,\nislam\
ischer Kalender,islamic,\nmuslimisch,islamic,\nmohammedanisch,islamic,\nmusulman,islamic,\nislamique,islamic,\nhégirie\
n,islamic,\nislamitisch,islamic,\nislamico,islamic,\nmusulmano,islamic,\nislámico,islamic,\nmusulmán,islamic,\nislams\
ki,islamic,\nmuzułmański,islamic,\nislámský,islamic,\nmuslimský,islamic,\nhicri,islamic,\nHedschra,islamic,\nHidsc\
hra,islamic,\nhégire,islamic,\nHegira,islamic,\nHijra,islamic,\nhidżra,islamic,\nhidžra,islamic,\nHicrî,islamic,\nA\
.H.,islamic,\nAH,islamic,\nIslamic calendar,islamic,\nRepublican,republican,\nFrench Republican,republican,\nrepublikan\
isch,republican,\nRevolutionskalender,republican,\nfranzösisch-republikanisch,republican,\nfranzösischer Revolutionsk\
alender,republican,\nrépublicain,republican,\ncalendrier républicain,republican,\nrévolutionnaire,republican,\nrepub\
likeins,republican,\nrepubblicano,republican,\nrepublicano,republican,\nrepublikański,republican,\nrepublikánský,rep\
ublican,\nFrench Republican calendar,republican,\nCoptic,coptic,\nkoptisch,coptic,\ncopte,coptic,\ncoptisch,coptic,\nco\
pto,coptic,\nkoptyjski,coptic,\nkoptský,coptic,\nEthiopic,ethiopic,\nEthiopian,ethiopic,\näthiopisch,ethiopic,\néthi\
opien,ethiopic,\nethiopisch,ethiopic,\netiopico,ethiopic,\netiope,ethiopic,\netiópico,ethiopic,\netiopski,ethiopic,\ne\
tiopský,ethiopic,\nEgyptian,egyptian,\nägyptisch,egyptian,\négyptien,egyptian,\negyptisch,egyptian,\negizio,egyptian\
,\negipcio,egyptian,\negipski,egyptian,\negyptský,egyptian,\nArmenian,armenian,\narmenisch,armenian,\narménien,armeni\
an,\narmeens,armenian,\narmeno,armenian,\narmenio,armenian,\normiański,armenian,\narménský,armenian,\nRoman,roman,\n\
römisch,roman,\nromain,roman,\nromeins,roman,\nromano,roman,\nrzymski,roman,\nřímský,roman,\nISO,iso,\nISO week,iso\
,\nISO-Woche,iso,\nISO 8601,iso,\nLong Count,longcount,\nlange Zählung,longcount,\ncompte long,longcount,\nlange telli\
ng,longcount,\nconto lungo,longcount,\ncuenta larga,longcount,\ndługa rachuba,longcount,\ndlouhý počet,longcount,\ng\
regorianski,gregorian,\ngregoriansk,gregorian,\ngregorianska,gregorian,\ngregorián,gregorian,\nгригорианск\
ий,gregorian,\nновый стиль,gregorian,\nн. ст.,gregorian,\nпо новому стилю,gregorian,\njulia\
nski,julian,\njuliansk,julian,\njulianska,julian,\njulián,julian,\nюлианский,julian,\nстарый стиль\
,julian,\nст. ст.,julian,\nпо старому стилю,julian,\nhebr.,hebrew,\nhebr,hebrew,\njüd.,hebrew,\njüd\
,hebrew,\nkopt.,coptic,\nkopt,coptic,\nröm.,roman,\nröm,roman,\narm.,armenian,\narm,armenian,\näth.,ethiopic,\näth,\
ethiopic,\nägypt.,egyptian,\nägypt,egyptian,\nisl.,islamic,\nisl,islamic,\nRepublik,republican,\nfrz. Rep.,republican\
,\nfranz. Rep.,republican,\nfrz. Republik,republican,\nRépublique,republican,\nrép.,republican,\nFranzösische Republ\
ik,republican,\nJanuar,month 1,gregorian julian roman\nJänner,month 1,gregorian julian roman\nJenner,month 1,gregoria\
n julian roman\nJan,month 1,gregorian julian roman\nJän,month 1,gregorian julian roman\nHartung,month 1,gregorian juli\
an roman\nEismond,month 1,gregorian julian roman\nFebruar,month 2,gregorian julian roman\nFeber,month 2,gregorian julia\
n roman\nFebruarius,month 2,gregorian julian roman\nFebr,month 2,gregorian julian roman\nFeb,month 2,gregorian julian r\
oman\nHornung,month 2,gregorian julian roman\nMärz,month 3,gregorian julian roman\nMär,month 3,gregorian julian roman\
\nMrz,month 3,gregorian julian roman\nMerz,month 3,gregorian julian roman\nLenzmond,month 3,gregorian julian roman\nLen\
zmonat,month 3,gregorian julian roman\nApril,month 4,gregorian julian roman\nApr,month 4,gregorian julian roman\nAprili\
s,month 4,gregorian julian roman\nOstermond,month 4,gregorian julian roman\nOstermonat,month 4,gregorian julian roman\n\
Mai,month 5,gregorian julian roman\nMaij,month 5,gregorian julian roman\nMay,month 5,gregorian julian roman\nMaien,mont\
h 5,gregorian julian roman\nWonnemond,month 5,gregorian julian roman\nWonnemonat,month 5,gregorian julian roman\nJuni,m\
onth 6,gregorian julian roman\nJuny,month 6,gregorian julian roman\nJun,month 6,gregorian julian roman\nBrachet,month 6\
,gregorian julian roman\nBrachmond,month 6,gregorian julian roman\nBrachmonat,month 6,gregorian julian roman\nJuli,mont\
h 7,gregorian julian roman\nJuly,month 7,gregorian julian roman\nJul,month 7,gregorian julian roman\nHeuet,month 7,greg\
orian julian roman\nHeumond,month 7,gregorian julian roman\nHeumonat,month 7,gregorian julian roman\nAugust,month 8,gre\
gorian julian roman\nAug,month 8,gregorian julian roman\nAugst,month 8,gregorian julian roman\nAugstmonat,month 8,grego\
rian julian roman\nErntemond,month 8,gregorian julian roman\nErntemonat,month 8,gregorian julian roman\nSeptember,mont\
h 9,gregorian julian roman\nSept,month 9,gregorian julian roman\nSep,month 9,gregorian julian roman\nHerbstmond,month 9\
,gregorian julian roman\nHerbstmonat,month 9,gregorian julian roman\nOktober,month 10,gregorian julian roman\nOctober,m\
onth 10,gregorian julian roman\nOkt,month 10,gregorian julian roman\nOct,month 10,gregorian julian roman\nWeinmond,mont\
h 10,gregorian julian roman\nWeinmonat,month 10,gregorian julian roman\nNovember,month 11,gregorian julian roman\nNov,m\
onth 11,gregorian julian roman\nWintermond,month 11,gregorian julian roman\nWintermonat,month 11,gregorian julian roman\
\nWindmond,month 11,gregorian julian roman\nDezember,month 12,gregorian julian roman\nDecember,month 12,gregorian julia\
n roman\nDez,month 12,gregorian julian roman\nDec,month 12,gregorian julian roman\nChristmond,month 12,gregorian julia\
n roman\nChristmonat,month 12,gregorian julian roman\nJanuary,month 1,gregorian julian roman\nFebruary,month 2,gregoria\
n julian roman\nMarch,month 3,gregorian julian roman\nMar,month 3,gregorian julian roman\nJune,month 6,gregorian julia\
n roman\njanvier,month 1,gregorian julian roman\njanv,month 1,gregorian julian roman\nfévrier,month 2,gregorian julia\
n roman\nfevrier,month 2,gregorian julian roman\nfévr,month 2,gregorian julian roman\nfevr,month 2,gregorian julian ro\
man\nfév,month 2,gregorian julian roman\nmars,month 3,gregorian julian roman\navril,month 4,gregorian julian roman\nav\
r,month 4,gregorian julian roman\nd'avril,month 4,gregorian julian roman\nd’avril,month 4,gregorian julian roman\njui\
n,month 6,gregorian julian roman\njuillet,month 7,gregorian julian roman\njuil,month 7,gregorian julian roman\naoût,mo\
nth 8,gregorian julian roman\naout,month 8,gregorian julian roman\naoust,month 8,gregorian julian roman\nd'août,month \
8,gregorian julian roman\nd’août,month 8,gregorian julian roman\nd'aout,month 8,gregorian julian roman\nseptembre,mo\
nth 9,gregorian julian roman\noctobre,month 10,gregorian julian roman\nd'octobre,month 10,gregorian julian roman\nd’o\
ctobre,month 10,gregorian julian roman\nnovembre,month 11,gregorian julian roman\ndécembre,month 12,gregorian julian r\
oman\ndecembre,month 12,gregorian julian roman\ndéc,month 12,gregorian julian roman\njanuari,month 1,gregorian julian \
roman\nlouwmaand,month 1,gregorian julian roman\nfebruari,month 2,gregorian julian roman\nsprokkelmaand,month 2,gregori\
an julian roman\nmaart,month 3,gregorian julian roman\nmrt,month 3,gregorian julian roman\nlentemaand,month 3,gregoria\
n julian roman\ngrasmaand,month 4,gregorian julian roman\nmei,month 5,gregorian julian roman\nbloeimaand,month 5,gregor\
ian julian roman\nzomermaand,month 6,gregorian julian roman\nhooimaand,month 7,gregorian julian roman\naugustus,month 8\
,gregorian julian roman\noogstmaand,month 8,gregorian julian roman\nherfstmaand,month 9,gregorian julian roman\nwijnmaa\
nd,month 10,gregorian julian roman\nslachtmaand,month 11,gregorian julian roman\nwintermaand,month 12,gregorian julian \
roman\ngennaio,month 1,gregorian julian roman\ngenn,month 1,gregorian julian roman\ngen,month 1,gregorian julian roman\
\ngennaro,month 1,gregorian julian roman\nfebbraio,month 2,gregorian julian roman\nfebbr,month 2,gregorian julian roman\
\nfebb,month 2,gregorian julian roman\nfebbraro,month 2,gregorian julian roman\nmarzo,month 3,gregorian julian roman\na\
prile,month 4,gregorian julian roman\nmaggio,month 5,gregorian julian roman\nmagg,month 5,gregorian julian roman\nmag,m\
onth 5,gregorian julian roman\ngiugno,month 6,gregorian julian roman\ngiu,month 6,gregorian julian roman\nluglio,month \
7,gregorian julian roman\nlugl,month 7,gregorian julian roman\nlug,month 7,gregorian julian roman\nagosto,month 8,grego\
rian julian roman\nago,month 8,gregorian julian roman\nsettembre,month 9,gregorian julian roman\nsett,month 9,gregoria\
n julian roman\nset,month 9,gregorian julian roman\nottobre,month 10,gregorian julian roman\nott,month 10,gregorian jul\
ian roman\ndicembre,month 12,gregorian julian roman\ndic,month 12,gregorian julian roman\nenero,month 1,gregorian julia\
n roman\nene,month 1,gregorian julian roman\nfebrero,month 2,gregorian julian roman\nabril,month 4,gregorian julian rom\
an\nabr,month 4,gregorian julian roman\nmayo,month 5,gregorian julian roman\njunio,month 6,gregorian julian roman\njuli\
o,month 7,gregorian julian roman\nseptiembre,month 9,gregorian julian roman\nsetiembre,month 9,gregorian julian roman\n\
octubre,month 10,gregorian julian roman\nnoviembre,month 11,gregorian julian roman\ndiciembre,month 12,gregorian julia\
n roman\nstyczeń,month 1,gregorian julian roman\nstycznia,month 1,gregorian julian roman\nstycz,month 1,gregorian juli\
an roman\nluty,month 2,gregorian julian roman\nlutego,month 2,gregorian julian roman\nmarzec,month 3,gregorian julian r\
oman\nmarca,month 3,gregorian julian roman\nkwiecień,month 4,gregorian julian roman\nkwietnia,month 4,gregorian julia\
n roman\nkwiec,month 4,gregorian julian roman\nmaj,month 5,gregorian julian roman\nmaja,month 5,gregorian julian roman\
\nczerwiec,month 6,gregorian julian roman\nczerwca,month 6,gregorian julian roman\nczerw,month 6,gregorian julian roman\
\nlipiec,month 7,gregorian julian roman\nlipca,month 7,gregorian julian roman\nsierpień,month 8,gregorian julian roman\
\nsierpnia,month 8,gregorian julian roman\nsierp,month 8,gregorian julian roman\nwrzesień,month 9,gregorian julian rom\
an\nwrześnia,month 9,gregorian julian roman\nwrzes,month 9,gregorian julian roman\npaździernik,month 10,gregorian jul\
ian roman\npaździernika,month 10,gregorian julian roman\npaźdz,month 10,gregorian julian roman\npazdz,month 10,gregor\
ian julian roman\nlistopad,month 11,gregorian julian roman\nlistopada,month 11,gregorian julian roman\ngrudzień,month \
12,gregorian julian roman\ngrudnia,month 12,gregorian julian roman\ngrudz,month 12,gregorian julian roman\nleden,month \
1,gregorian julian roman\nledna,month 1,gregorian julian roman\núnor,month 2,gregorian julian roman\núnora,month 2,gr\
egorian julian roman\nbřezen,month 3,gregorian julian roman\nbřezna,month 3,gregorian julian roman\nduben,month 4,gre\
gorian julian roman\ndubna,month 4,gregorian julian roman\nkvěten,month 5,gregorian julian roman\nkvětna,month 5,greg\
orian julian roman\nčerven,month 6,gregorian julian roman\nčervna,month 6,gregorian julian roman\nčervenec,month 7,g\
regorian julian roman\nčervence,month 7,gregorian julian roman\nsrpen,month 8,gregorian julian roman\nsrpna,month 8,gr\
egorian julian roman\nzáří,month 9,gregorian julian roman\nříjen,month 10,gregorian julian roman\nříjna,month 10\
,gregorian julian roman\nlistopadu,month 11,gregorian julian roman\nprosinec,month 12,gregorian julian roman\nprosince,\
month 12,gregorian julian roman\nIanuarius,month 1,gregorian julian roman\nIanuarii,month 1,gregorian julian roman\nIan\
uarias,month 1,gregorian julian roman\nIanuariis,month 1,gregorian julian roman\nIan,month 1,gregorian julian roman\nJa\
nuarius,month 1,gregorian julian roman\nJanuarii,month 1,gregorian julian roman\nJanuarij,month 1,gregorian julian roma\
n\nJanuarias,month 1,gregorian julian roman\nJanuariis,month 1,gregorian julian roman\nsty,month 1,gregorian julian rom\
an\nFebruarii,month 2,gregorian julian roman\nFebruarij,month 2,gregorian julian roman\nFebruarias,month 2,gregorian ju\
lian roman\nFebruariis,month 2,gregorian julian roman\nlut,month 2,gregorian julian roman\nMartius,month 3,gregorian ju\
lian roman\nMartii,month 3,gregorian julian roman\nMartij,month 3,gregorian julian roman\nMartias,month 3,gregorian jul\
ian roman\nMartiis,month 3,gregorian julian roman\nMart,month 3,gregorian julian roman\nApriles,month 4,gregorian julia\
n roman\nAprilibus,month 4,gregorian julian roman\nkwi,month 4,gregorian julian roman\nMaius,month 5,gregorian julian r\
oman\nMaii,month 5,gregorian julian roman\nMaias,month 5,gregorian julian roman\nMaiis,month 5,gregorian julian roman\n\
Iunius,month 6,gregorian julian roman\nIunii,month 6,gregorian julian roman\nIunias,month 6,gregorian julian roman\nIun\
iis,month 6,gregorian julian roman\nIun,month 6,gregorian julian roman\nJunius,month 6,gregorian julian roman\nJunii,mo\
nth 6,gregorian julian roman\nJunij,month 6,gregorian julian roman\nJunias,month 6,gregorian julian roman\nJuniis,mont\
h 6,gregorian julian roman\ncze,month 6,gregorian julian roman\nIulius,month 7,gregorian julian roman\nIulii,month 7,gr\
egorian julian roman\nIulias,month 7,gregorian julian roman\nIuliis,month 7,gregorian julian roman\nIul,month 7,gregori\
an julian roman\nJulius,month 7,gregorian julian roman\nJulii,month 7,gregorian julian roman\nJulij,month 7,gregorian j\
ulian roman\nJulias,month 7,gregorian julian roman\nJuliis,month 7,gregorian julian roman\nlip,month 7,gregorian julia\
n roman\nAugusti,month 8,gregorian julian roman\nAugustas,month 8,gregorian julian roman\nAugustis,month 8,gregorian ju\
lian roman\nsie,month 8,gregorian julian roman\nSeptembris,month 9,gregorian julian roman\nSeptembres,month 9,gregoria\
n julian roman\nSeptembribus,month 9,gregorian julian roman\n7bris,month 9,gregorian julian roman\n7ber,month 9,gregori\
an julian roman\n7bre,month 9,gregorian julian roman\n7br,month 9,gregorian julian roman\nVIIbris,month 9,gregorian jul\
ian roman\nVIIber,month 9,gregorian julian roman\nwrz,month 9,gregorian julian roman\nOctobris,month 10,gregorian julia\
n roman\nOctobres,month 10,gregorian julian roman\nOctobribus,month 10,gregorian julian roman\n8bris,month 10,gregoria\
n julian roman\n8ber,month 10,gregorian julian roman\n8bre,month 10,gregorian julian roman\n8br,month 10,gregorian juli\
an roman\nVIIIbris,month 10,gregorian julian roman\nVIIIber,month 10,gregorian julian roman\npaź,month 10,gregorian ju\
lian roman\nNovembris,month 11,gregorian julian roman\nNovembres,month 11,gregorian julian roman\nNovembribus,month 11,\
gregorian julian roman\n9bris,month 11,gregorian julian roman\n9ber,month 11,gregorian julian roman\n9bre,month 11,greg\
orian julian roman\n9br,month 11,gregorian julian roman\nIXbris,month 11,gregorian julian roman\nIXber,month 11,gregori\
an julian roman\nlis,month 11,gregorian julian roman\nDecembris,month 12,gregorian julian roman\nDecembres,month 12,gre\
gorian julian roman\nDecembribus,month 12,gregorian julian roman\n10bris,month 12,gregorian julian roman\n10ber,month 1\
2,gregorian julian roman\n10bre,month 12,gregorian julian roman\n10br,month 12,gregorian julian roman\nXbris,month 12,g\
regorian julian roman\nXber,month 12,gregorian julian roman\nxbre,month 12,gregorian julian roman\ngru,month 12,gregori\
an julian roman\nJany,month 1,gregorian julian roman\nJan'y,month 1,gregorian julian roman\nJan’y,month 1,gregorian j\
ulian roman\nJanry,month 1,gregorian julian roman\nJan'ry,month 1,gregorian julian roman\nJan’ry,month 1,gregorian ju\
lian roman\nFeby,month 2,gregorian julian roman\nFeb'y,month 2,gregorian julian roman\nFeb’y,month 2,gregorian julia\
n roman\nFebry,month 2,gregorian julian roman\nFeb'ry,month 2,gregorian julian roman\nFeb’ry,month 2,gregorian julia\
n roman\nFebuary,month 2,gregorian julian roman\nApl,month 4,gregorian julian roman\nAprl,month 4,gregorian julian roma\
n\nAugt,month 8,gregorian julian roman\nSeptr,month 9,gregorian julian roman\nSepr,month 9,gregorian julian roman\nSept\
br,month 9,gregorian julian roman\nSeptemr,month 9,gregorian julian roman\nOctr,month 10,gregorian julian roman\nOctbr,\
month 10,gregorian julian roman\nOctobr,month 10,gregorian julian roman\nOctor,month 10,gregorian julian roman\nOktbr,m\
onth 10,gregorian julian roman\nNovr,month 11,gregorian julian roman\nNovbr,month 11,gregorian julian roman\nNovemr,mon\
th 11,gregorian julian roman\nDecr,month 12,gregorian julian roman\nDecbr,month 12,gregorian julian roman\nDecemr,mont\
h 12,gregorian julian roman\nDezbr,month 12,gregorian julian roman\nlauwe,month 1,gregorian julian\nlauwmaand,month 1,g\
regorian julian\nsprokkel,month 2,gregorian julian\nsporkel,month 2,gregorian julian\nsporkille,month 2,gregorian julia\
n\nmeert,month 3,gregorian julian\nmaert,month 3,gregorian julian\nmeerte,month 3,gregorian julian\ngrasmaend,month 4,g\
regorian julian\nmeye,month 5,gregorian julian\nmeymaand,month 5,gregorian julian\nbloeimaend,month 5,gregorian julian\
\nwedemaand,month 6,gregorian julian\nbraakmaand,month 6,gregorian julian\nweedemaand,month 6,gregorian julian\nhoymaan\
d,month 7,gregorian julian\noogst,month 8,gregorian julian\noogstmaend,month 8,gregorian julian\noostmaand,month 8,greg\
orian julian\ngerstmaand,month 9,gregorian julian\nherfstmaend,month 9,gregorian julian\nwijnmaend,month 10,gregorian j\
ulian\nsmeermaand,month 11,gregorian julian\nslachtmaend,month 11,gregorian julian\nwintermaend,month 12,gregorian juli\
an\nMaji,month 5,gregorian julian roman\nMajus,month 5,gregorian julian roman\nMaio,month 5,gregorian julian roman\nIan\
uarij,month 1,gregorian julian roman\nIunij,month 6,gregorian julian roman\nIulij,month 7,gregorian julian roman\nAugus\
tij,month 8,gregorian julian roman\nmensis Januarii,month 1,gregorian julian\nmensis Februarii,month 2,gregorian julian\
\nmensis Martii,month 3,gregorian julian\nmensis Aprilis,month 4,gregorian julian\nmensis Maii,month 5,gregorian julian\
\nmensis Junii,month 6,gregorian julian\nmensis Julii,month 7,gregorian julian\nmensis Augusti,month 8,gregorian julian\
\nmensis Septembris,month 9,gregorian julian\nmensis Octobris,month 10,gregorian julian\nmensis Novembris,month 11,greg\
orian julian\nmensis Decembris,month 12,gregorian julian\nmonth of January,month 1,gregorian julian\nmonth of February,\
month 2,gregorian julian\nmonth of March,month 3,gregorian julian\nmonth of April,month 4,gregorian julian\nmonth of Ma\
y,month 5,gregorian julian\nmonth of June,month 6,gregorian julian\nmonth of July,month 7,gregorian julian\nmonth of Au\
gust,month 8,gregorian julian\nmonth of September,month 9,gregorian julian\nmonth of October,month 10,gregorian julian\
\nmonth of November,month 11,gregorian julian\nmonth of December,month 12,gregorian julian\nmois de janvier,month 1,gre\
gorian julian\nmois de février,month 2,gregorian julian\nmois de mars,month 3,gregorian julian\nmois de avril,month 4,\
gregorian julian\nmois de mai,month 5,gregorian julian\nmois de juin,month 6,gregorian julian\nmois de juillet,month 7,\
gregorian julian\nmois de août,month 8,gregorian julian\nmois de septembre,month 9,gregorian julian\nmois de octobre,m\
onth 10,gregorian julian\nmois de novembre,month 11,gregorian julian\nmois de décembre,month 12,gregorian julian\nMona\
ts Januar,month 1,gregorian julian\nMonats Februar,month 2,gregorian julian\nMonats März,month 3,gregorian julian\nMon\
ats April,month 4,gregorian julian\nMonats Mai,month 5,gregorian julian\nMonats Juni,month 6,gregorian julian\nMonats J\
uli,month 7,gregorian julian\nMonats August,month 8,gregorian julian\nMonats September,month 9,gregorian julian\nMonat\
s Oktober,month 10,gregorian julian\nMonats November,month 11,gregorian julian\nMonats Dezember,month 12,gregorian juli\
an\nMonat Januar,month 1,gregorian julian\nMonat Februar,month 2,gregorian julian\nMonat März,month 3,gregorian julian\
\nMonat April,month 4,gregorian julian\nMonat Mai,month 5,gregorian julian\nMonat Juni,month 6,gregorian julian\nMonat \
Juli,month 7,gregorian julian\nMonat August,month 8,gregorian julian\nMonat September,month 9,gregorian julian\nMonat O\
ktober,month 10,gregorian julian\nMonat November,month 11,gregorian julian\nMonat Dezember,month 12,gregorian julian\nm\
ese di gennaio,month 1,gregorian julian\nmese di febbraio,month 2,gregorian julian\nmese di marzo,month 3,gregorian jul\
ian\nmese di aprile,month 4,gregorian julian\nmese di maggio,month 5,gregorian julian\nmese di giugno,month 6,gregoria\
n julian\nmese di luglio,month 7,gregorian julian\nmese di agosto,month 8,gregorian julian\nmese di settembre,month 9,g\
regorian julian\nmese di ottobre,month 10,gregorian julian\nmese di novembre,month 11,gregorian julian\nmese di dicembr\
e,month 12,gregorian julian\nmes de enero,month 1,gregorian julian\nmes de febrero,month 2,gregorian julian\nmes de mar\
zo,month 3,gregorian julian\nmes de abril,month 4,gregorian julian\nmes de mayo,month 5,gregorian julian\nmes de junio,\
month 6,gregorian julian\nmes de julio,month 7,gregorian julian\nmes de agosto,month 8,gregorian julian\nmes de septiem\
bre,month 9,gregorian julian\nmes de octubre,month 10,gregorian julian\nmes de noviembre,month 11,gregorian julian\nme\
s de diciembre,month 12,gregorian julian\nmiesiąca stycznia,month 1,gregorian julian\nmiesiąca lutego,month 2,gregori\
an julian\nmiesiąca marca,month 3,gregorian julian\nmiesiąca kwietnia,month 4,gregorian julian\nmiesiąca maja,month \
5,gregorian julian\nmiesiąca czerwca,month 6,gregorian julian\nmiesiąca lipca,month 7,gregorian julian\nmiesiąca sie\
rpnia,month 8,gregorian julian\nmiesiąca września,month 9,gregorian julian\nmiesiąca października,month 10,gregoria\
n julian\nmiesiąca listopada,month 11,gregorian julian\nmiesiąca grudnia,month 12,gregorian julian\nmensis Ianuarii,m\
onth 1,gregorian julian\nmensis Iunii,month 6,gregorian julian\nmensis Iulii,month 7,gregorian julian\nmensis Januarij,\
month 1,gregorian julian\nmensis Februarij,month 2,gregorian julian\nmensis Martij,month 3,gregorian julian\nmensis Mai\
j,month 5,gregorian julian\nmensis Junij,month 6,gregorian julian\nmensis Julij,month 7,gregorian julian\nmois d'avril,\
month 4,gregorian julian\nmois d’avril,month 4,gregorian julian\nmois d'août,month 8,gregorian julian\nmois d’aoû\
t,month 8,gregorian julian\nmois d'aout,month 8,gregorian julian\nmois d’aout,month 8,gregorian julian\nmois d'octobr\
e,month 10,gregorian julian\nmois d’octobre,month 10,gregorian julian\ndi gennaio,month 1,gregorian julian\ndi febbra\
io,month 2,gregorian julian\ndi marzo,month 3,gregorian julian\ndi aprile,month 4,gregorian julian\ndi maggio,month 5,g\
regorian julian\ndi giugno,month 6,gregorian julian\ndi luglio,month 7,gregorian julian\ndi agosto,month 8,gregorian ju\
lian\ndi settembre,month 9,gregorian julian\ndi ottobre,month 10,gregorian julian\ndi novembre,month 11,gregorian julia\
n\ndi dicembre,month 12,gregorian julian\nd'aprile,month 4,gregorian julian\nd’aprile,month 4,gregorian julian\nd'ago\
sto,month 8,gregorian julian\nd’agosto,month 8,gregorian julian\nd'ottobre,month 10,gregorian julian\nd’ottobre,mon\
th 10,gregorian julian\nгенварь,month 1,gregorian julian\nгенваря,month 1,gregorian julian\nгенв,mont\
h 1,gregorian julian\nянв,month 1,gregorian julian\nянварь,month 1,gregorian julian\nянваря,month 1,greg\
orian julian\nапрѣль,month 4,gregorian julian\nапрѣля,month 4,gregorian julian\nіюнь,month 6,gregorian \
julian\nіюня,month 6,gregorian julian\nіюль,month 7,gregorian julian\nіюля,month 7,gregorian julian\nсен\
тября,month 9,gregorian julian\nоктября,month 10,gregorian julian\nноября,month 11,gregorian julian\n\
декабря,month 12,gregorian julian\nmarts,month 3,gregorian julian\ndesember,month 12,gregorian julian\ntammikuu,\
month 1,gregorian julian\ntammikuuta,month 1,gregorian julian\nhelmikuu,month 2,gregorian julian\nhelmikuuta,month 2,gr\
egorian julian\nmaaliskuu,month 3,gregorian julian\nmaaliskuuta,month 3,gregorian julian\nhuhtikuu,month 4,gregorian ju\
lian\nhuhtikuuta,month 4,gregorian julian\ntoukokuu,month 5,gregorian julian\ntoukokuuta,month 5,gregorian julian\nkes\
äkuu,month 6,gregorian julian\nkesäkuuta,month 6,gregorian julian\nheinäkuu,month 7,gregorian julian\nheinäkuuta,mo\
nth 7,gregorian julian\nelokuu,month 8,gregorian julian\nelokuuta,month 8,gregorian julian\nsyyskuu,month 9,gregorian j\
ulian\nsyyskuuta,month 9,gregorian julian\nlokakuu,month 10,gregorian julian\nlokakuuta,month 10,gregorian julian\nmarr\
askuu,month 11,gregorian julian\nmarraskuuta,month 11,gregorian julian\njoulukuu,month 12,gregorian julian\njoulukuuta,\
month 12,gregorian julian\njanuár,month 1,gregorian julian\nfebruár,month 2,gregorian julian\nmárcius,month 3,gregor\
ian julian\nmárc,month 3,gregorian julian\náprilis,month 4,gregorian julian\nápr,month 4,gregorian julian\nmájus,mo\
nth 5,gregorian julian\nmáj,month 5,gregorian julian\njúnius,month 6,gregorian julian\njún,month 6,gregorian julian\
\njúlius,month 7,gregorian julian\njúl,month 7,gregorian julian\naugusztus,month 8,gregorian julian\nszeptember,mont\
h 9,gregorian julian\nszept,month 9,gregorian julian\noktóber,month 10,gregorian julian\njaneiro,month 1,gregorian jul\
ian\nfevereiro,month 2,gregorian julian\nfev,month 2,gregorian julian\nmarço,month 3,gregorian julian\njunho,month 6,g\
regorian julian\njulho,month 7,gregorian julian\nsetembro,month 9,gregorian julian\noutubro,month 10,gregorian julian\n\
out,month 10,gregorian julian\nnovembro,month 11,gregorian julian\ndezembro,month 12,gregorian julian\nфевраль,m\
onth 2,gregorian julian\nфевр,month 2,gregorian julian\nфевраля,month 2,gregorian julian\nмарт,month 3,g\
regorian julian\nмарта,month 3,gregorian julian\nмар,month 3,gregorian julian\nапрель,month 4,gregorian j\
ulian\nапр,month 4,gregorian julian\nапреля,month 4,gregorian julian\nмай,month 5,gregorian julian\nмая,\
month 5,gregorian julian\nиюнь,month 6,gregorian julian\nиюня,month 6,gregorian julian\nиюн,month 6,gregoria\
n julian\nиюль,month 7,gregorian julian\nиюля,month 7,gregorian julian\nиюл,month 7,gregorian julian\nавг\
уст,month 8,gregorian julian\nавг,month 8,gregorian julian\nавгуста,month 8,gregorian julian\nе янва\
ря,month 1,gregorian julian\nе февраля,month 2,gregorian julian\nе марта,month 3,gregorian julian\nе \
апреля,month 4,gregorian julian\nе мая,month 5,gregorian julian\nе июня,month 6,gregorian julian\nе и\
юля,month 7,gregorian julian\nе августа,month 8,gregorian julian\nе сентября,month 9,gregorian juli\
an\nе октября,month 10,gregorian julian\nе ноября,month 11,gregorian julian\nе декабря,month 12,\
gregorian julian\nсентябрь,month 9,gregorian julian\nсент,month 9,gregorian julian\nоктябрь,month 10\
,gregorian julian\nокт,month 10,gregorian julian\nноябрь,month 11,gregorian julian\nнояб,month 11,gregoria\
n julian\nдекабрь,month 12,gregorian julian\nдек,month 12,gregorian julian\nсічень,month 1,gregorian ju\
lian\nсіч,month 1,gregorian julian\nсічня,month 1,gregorian julian\nлютий,month 2,gregorian julian\nлют\
,month 2,gregorian julian\nлютого,month 2,gregorian julian\nберезень,month 3,gregorian julian\nбер,mon\
th 3,gregorian julian\nберезня,month 3,gregorian julian\nквітень,month 4,gregorian julian\nквіт,mont\
h 4,gregorian julian\nквітня,month 4,gregorian julian\nтравень,month 5,gregorian julian\nтрав,month 5,\
gregorian julian\nтравня,month 5,gregorian julian\nчервень,month 6,gregorian julian\nчерв,month 6,greg\
orian julian\nчервня,month 6,gregorian julian\nлипень,month 7,gregorian julian\nлип,month 7,gregorian ju\
lian\nлипня,month 7,gregorian julian\nсерпень,month 8,gregorian julian\nсерп,month 8,gregorian julian\n\
серпня,month 8,gregorian julian\nвересень,month 9,gregorian julian\nвер,month 9,gregorian julian\nве\
ресня,month 9,gregorian julian\nжовтень,month 10,gregorian julian\nжовт,month 10,gregorian julian\nжо\
втня,month 10,gregorian julian\nлистопад,month 11,gregorian julian\nлист,month 11,gregorian julian\nл\
истопада,month 11,gregorian julian\nгрудень,month 12,gregorian julian\nгруд,month 12,gregorian julia\
n\nгрудня,month 12,gregorian julian\nΙανουαρίου,month 1,gregorian julian\nΙαν,month 1,gregorian juli\
an\nΦεβρουαρίου,month 2,gregorian julian\nΦεβ,month 2,gregorian julian\nΜαρτίου,month 3,gregorian \
julian\nΜαρ,month 3,gregorian julian\nΑπριλίου,month 4,gregorian julian\nΑπρ,month 4,gregorian julian\nΜ\
αΐου,month 5,gregorian julian\nΜαΐ,month 5,gregorian julian\nΙουνίου,month 6,gregorian julian\nΙουν,m\
onth 6,gregorian julian\nΙουλίου,month 7,gregorian julian\nΙουλ,month 7,gregorian julian\nΑυγούστου\
,month 8,gregorian julian\nΑυγ,month 8,gregorian julian\nΣεπτεμβρίου,month 9,gregorian julian\nΣεπ,mon\
th 9,gregorian julian\nΟκτωβρίου,month 10,gregorian julian\nΟκτ,month 10,gregorian julian\nΝοεμβρίο\
υ,month 11,gregorian julian\nΝοε,month 11,gregorian julian\nΔεκεμβρίου,month 12,gregorian julian\nΔεκ,\
month 12,gregorian julian\nOcak,month 1,gregorian julian\nOca,month 1,gregorian julian\nŞubat,month 2,gregorian julian\
\nŞub,month 2,gregorian julian\nNisan,month 4,gregorian julian\nNis,month 4,gregorian julian\nMayıs,month 5,gregoria\
n julian\nHaziran,month 6,gregorian julian\nHaz,month 6,gregorian julian\nTemmuz,month 7,gregorian julian\nTem,month 7,\
gregorian julian\nAğustos,month 8,gregorian julian\nAğu,month 8,gregorian julian\nEylül,month 9,gregorian julian\nEy\
l,month 9,gregorian julian\nEkim,month 10,gregorian julian\nEki,month 10,gregorian julian\nKasım,month 11,gregorian ju\
lian\nKas,month 11,gregorian julian\nAralık,month 12,gregorian julian\nAra,month 12,gregorian julian\nΙανουάρι\
ος,month 1,gregorian julian\nΦεβρουάριος,month 2,gregorian julian\nΜάρτιος,month 3,gregorian julian\
\nΑπρίλιος,month 4,gregorian julian\nΜάιος,month 5,gregorian julian\nΙούνιος,month 6,gregorian juli\
an\nΙούλιος,month 7,gregorian julian\nΑύγουστος,month 8,gregorian julian\nΣεπτέμβριος,month \
9,gregorian julian\nΟκτώβριος,month 10,gregorian julian\nΝοέμβριος,month 11,gregorian julian\nΔεκ\
έμβριος,month 12,gregorian julian\nvendémiaire,month 1,french republican\nvendemiaire,month 1,french republican\
\nvend,month 1,french republican\nvendém,month 1,french republican\nWeinlesemonat,month 1,french republican\nVendemiä\
r,month 1,french republican\nVendémiär,month 1,french republican\nbrumaire,month 2,french republican\nbrum,month 2,fr\
ench republican\nNebelmonat,month 2,french republican\nBrumär,month 2,french republican\nfrimaire,month 3,french repub\
lican\nfrim,month 3,french republican\nReifmonat,month 3,french republican\nFrimär,month 3,french republican\nnivôse,\
month 4,french republican\nnivose,month 4,french republican\nniv,month 4,french republican\nSchneemonat,month 4,french \
republican\npluviôse,month 5,french republican\npluviose,month 5,french republican\npluv,month 5,french republican\nRe\
genmonat,month 5,french republican\nventôse,month 6,french republican\nventose,month 6,french republican\nvent,month 6\
,french republican\nWindmonat,month 6,french republican\ngerminal,month 7,french republican\ngerm,month 7,french republ\
ican\nKeimmonat,month 7,french republican\nfloréal,month 8,french republican\nfloreal,month 8,french republican\nflor,\
month 8,french republican\nBlütenmonat,month 8,french republican\nprairial,month 9,french republican\nprair,month 9,fr\
ench republican\nWiesenmonat,month 9,french republican\nmessidor,month 10,french republican\nmess,month 10,french repub\
lican\nErntemonat,month 10,french republican\nthermidor,month 11,french republican\ntherm,month 11,french republican\nf\
ervidor,month 11,french republican\nHitzemonat,month 11,french republican\nfructidor,month 12,french republican\nfruct,\
month 12,french republican\nFruchtmonat,month 12,french republican\njours complémentaires,month 13,french republican\n\
jour complémentaire,month 13,french republican\ncomplémentaires,month 13,french republican\ncomplémentaire,month 13,\
french republican\njours complementaires,month 13,french republican\njour complementaire,month 13,french republican\nco\
mplementaires,month 13,french republican\ncomplementaire,month 13,french republican\nsansculottides,month 13,french rep\
ublican\nsans-culottides,month 13,french republican\nsansculottide,month 13,french republican\nErgänzungstag,month 13,\
french republican\nErgänzungstage,month 13,french republican\nNIVO,month 4,french republican\nPRAI,month 9,french repu\
blican\nTHER,month 11,french republican\nFRUC,month 12,french republican\nCOMP,month 13,french republican\nmois de vend\
émiaire,month 1,french republican\nmois de brumaire,month 2,french republican\nmois de frimaire,month 3,french republi\
can\nmois de nivôse,month 4,french republican\nmois de pluviôse,month 5,french republican\nmois de ventôse,month 6,f\
rench republican\nmois de germinal,month 7,french republican\nmois de floréal,month 8,french republican\nmois de prair\
ial,month 9,french republican\nmois de messidor,month 10,french republican\nmois de thermidor,month 11,french republica\
n\nmois de fructidor,month 12,french republican\nNisan,month 1,hebrew\nNissan,month 1,hebrew\nNisson,month 1,hebrew\nIj\
ar,month 2,hebrew\nIjjar,month 2,hebrew\nIyar,month 2,hebrew\nIyyar,month 2,hebrew\nIar,month 2,hebrew\nJjar,month 2,he\
brew\nSiwan,month 3,hebrew\nSivan,month 3,hebrew\nSiwon,month 3,hebrew\nSywan,month 3,hebrew\nTammus,month 4,hebrew\nTa\
mus,month 4,hebrew\nTammuz,month 4,hebrew\nTamuz,month 4,hebrew\nThammuz,month 4,hebrew\nThamus,month 4,hebrew\nAw,mont\
h 5,hebrew\nAb,month 5,hebrew\nAv,month 5,hebrew\nMenachem Aw,month 5,hebrew\nMenachem Ab,month 5,hebrew\nMenachem Av,m\
onth 5,hebrew\nElul,month 6,hebrew\nEllul,month 6,hebrew\nTischri,month 7,hebrew\nTischrei,month 7,hebrew\nThischri,mon\
th 7,hebrew\nTishri,month 7,hebrew\nTishrei,month 7,hebrew\nTiszri,month 7,hebrew\nTyszri,month 7,hebrew\nCheschwan,mon\
th 8,hebrew\nMarcheschwan,month 8,hebrew\nHeshvan,month 8,hebrew\nCheshvan,month 8,hebrew\nMarcheshvan,month 8,hebrew\n\
Marheshvan,month 8,hebrew\nCheszwan,month 8,hebrew\nMarcheszwan,month 8,hebrew\nKislew,month 9,hebrew\nKislev,month 9,h\
ebrew\nKislow,month 9,hebrew\nTewet,month 10,hebrew\nTebet,month 10,hebrew\nTebeth,month 10,hebrew\nTevet,month 10,hebr\
ew\nTeweth,month 10,hebrew\nTeves,month 10,hebrew\nSchwat,month 11,hebrew\nSchewat,month 11,hebrew\nSchebat,month 11,he\
brew\nSchevat,month 11,hebrew\nShvat,month 11,hebrew\nShevat,month 11,hebrew\nShebat,month 11,hebrew\nSzwat,month 11,he\
brew\nSzewat,month 11,hebrew\nAdar I,month 12,hebrew\nAdar 1,month 12,hebrew\nAdar Rischon,month 12,hebrew\nAdar Rishon\
,month 12,hebrew\nAdar Riszon,month 12,hebrew\nI Adar,month 12,hebrew\n1 Adar,month 12,hebrew\nAdar II,month 13,hebrew\
\nAdar 2,month 13,hebrew\nAdar Scheni,month 13,hebrew\nAdar Sheni,month 13,hebrew\nAdar Szeni,month 13,hebrew\nWeadar,m\
onth 13,hebrew\nVeadar,month 13,hebrew\nII Adar,month 13,hebrew\n2 Adar,month 13,hebrew\nTSH,month 7,hebrew\nCSH,month \
8,hebrew\nKSL,month 9,hebrew\nTVT,month 10,hebrew\nSHV,month 11,hebrew\nADR,month 12,hebrew\nADS,month 13,hebrew\nNSN,m\
onth 1,hebrew\nIYR,month 2,hebrew\nSVN,month 3,hebrew\nTMZ,month 4,hebrew\nAAV,month 5,hebrew\nELL,month 6,hebrew\nMuha\
rram,month 1,islamic\nMoharram,month 1,islamic\nMuḥarram,month 1,islamic\nMuharrem,month 1,islamic\nSafar,month 2,isl\
amic\nṢafar,month 2,islamic\nSafer,month 2,islamic\nSefer,month 2,islamic\nRabi I,month 3,islamic\nRabi al-awwal,mont\
h 3,islamic\nRabīʿ al-awwal,month 3,islamic\nRabi al-auwal,month 3,islamic\nRebi I,month 3,islamic\nRebi ül-evvel,mo\
nth 3,islamic\nRebiülevvel,month 3,islamic\nRebiyülevvel,month 3,islamic\nRebiul-evvel,month 3,islamic\nRabiʻ I,mont\
h 3,islamic\nRabi II,month 4,islamic\nRabi ath-thani,month 4,islamic\nRabi al-thani,month 4,islamic\nRabi al-akhir,mont\
h 4,islamic\nRabīʿ ath-thānī,month 4,islamic\nRebi II,month 4,islamic\nRebi ül-ahir,month 4,islamic\nRebiülahir,m\
onth 4,islamic\nRebiülâhir,month 4,islamic\nRebiyülahir,month 4,islamic\nRabiʻ II,month 4,islamic\nJumada I,month 5\
,islamic\nJumada al-ula,month 5,islamic\nDschumada I,month 5,islamic\nDschumada al-ula,month 5,islamic\nǦumādā al-ū\
lā,month 5,islamic\nCemazi I,month 5,islamic\nCemaziyelevvel,month 5,islamic\nCemâziyelevvel,month 5,islamic\nJumada \
II,month 6,islamic\nJumada al-akhira,month 6,islamic\nJumada al-thani,month 6,islamic\nDschumada II,month 6,islamic\nDs\
chumada th-thaniya,month 6,islamic\nǦumādā al-āḫira,month 6,islamic\nCemazi II,month 6,islamic\nCemaziyelahir,mon\
th 6,islamic\nCemâziyelâhir,month 6,islamic\nRajab,month 7,islamic\nRadschab,month 7,islamic\nRaǧab,month 7,islamic\
\nRecep,month 7,islamic\nReceb,month 7,islamic\nShaban,month 8,islamic\nSha'ban,month 8,islamic\nSchaban,month 8,islami\
c\nScha'ban,month 8,islamic\nŠaʿbān,month 8,islamic\nŞaban,month 8,islamic\nŞaʿbân,month 8,islamic\nShaʻban,mon\
th 8,islamic\nRamadan,month 9,islamic\nRamaḍān,month 9,islamic\nRamazan,month 9,islamic\nShawwal,month 10,islamic\nS\
chawwal,month 10,islamic\nŠawwāl,month 10,islamic\nŞevval,month 10,islamic\nDhu al-Qada,month 11,islamic\nDhu al-Qa'\
da,month 11,islamic\nDhu l-Qada,month 11,islamic\nDhul-Qada,month 11,islamic\nDhu l-qaʿda,month 11,islamic\nDhū l-qa\
ʿda,month 11,islamic\nDhu l-Qa'da,month 11,islamic\nZilkade,month 11,islamic\nZi'l-ka'de,month 11,islamic\nDhuʻl-Qiʻ\
dah,month 11,islamic\nDhu al-Hijja,month 12,islamic\nDhu l-Hijja,month 12,islamic\nDhul-Hijja,month 12,islamic\nDhu l-h\
iddscha,month 12,islamic\nDhū l-ḥiǧǧa,month 12,islamic\nZilhicce,month 12,islamic\nZi'l-hicce,month 12,islamic\nDh\
uʻl-Hijjah,month 12,islamic\nMoharrem,month 1,islamic\nMucharrem,month 1,islamic\nSsafer,month 2,islamic\nSsafar,mont\
h 2,islamic\nSaphar,month 2,islamic\nRebiul-ewwel,month 3,islamic\nRebi ül-ewwel,month 3,islamic\nRebi ul-ewwel,month \
3,islamic\nRebi el-ewwel,month 3,islamic\nRebi el-awwel,month 3,islamic\nRebiulewwel,month 3,islamic\nRebiülewwel,mont\
h 3,islamic\nRabi el-auwal,month 3,islamic\nRabi el-awwal,month 3,islamic\nRebi el-auwel,month 3,islamic\nRebiul-achir,\
month 4,islamic\nRebi ül-achir,month 4,islamic\nRebi ul-achir,month 4,islamic\nRebi el-achir,month 4,islamic\nRebiulac\
hir,month 4,islamic\nRebiülachir,month 4,islamic\nRabi el-achir,month 4,islamic\nRabi al-achir,month 4,islamic\nRebi e\
l-accher,month 4,islamic\nDschemasi ül-ewwel,month 5,islamic\nDschemasiul-ewwel,month 5,islamic\nDschemasiulewwel,mont\
h 5,islamic\nDschemadi el-ewwel,month 5,islamic\nDschumada el-ula,month 5,islamic\nDschumadi I,month 5,islamic\nDschema\
di I,month 5,islamic\nDschemasi I,month 5,islamic\nDschumadi el-ewwel,month 5,islamic\nDschemadi ül-ewwel,month 5,isla\
mic\nDschemasi ül-achir,month 6,islamic\nDschemasiul-achir,month 6,islamic\nDschemasiulachir,month 6,islamic\nDschemad\
i el-achir,month 6,islamic\nDschumada el-achira,month 6,islamic\nDschumadi II,month 6,islamic\nDschemadi II,month 6,isl\
amic\nDschemasi II,month 6,islamic\nDschumadi el-achir,month 6,islamic\nDschemadi ül-achir,month 6,islamic\nRedscheb,m\
onth 7,islamic\nRedschep,month 7,islamic\nRedjeb,month 7,islamic\nRadscheb,month 7,islamic\nSchaaban,month 8,islamic\nS\
cha'abân,month 8,islamic\nSchabân,month 8,islamic\nSchâban,month 8,islamic\nRamasan,month 9,islamic\nRamazân,month \
9,islamic\nRamadân,month 9,islamic\nSchewwal,month 10,islamic\nSchewal,month 10,islamic\nSchauwal,month 10,islamic\nSc\
hawal,month 10,islamic\nSilkade,month 11,islamic\nSilkide,month 11,islamic\nSulkade,month 11,islamic\nDulkade,month 11,\
islamic\nDsulkade,month 11,islamic\nDhulkade,month 11,islamic\nDsu'l-kade,month 11,islamic\nDhu'l-Kade,month 11,islamic\
\nDhu l-Kade,month 11,islamic\nSilkaade,month 11,islamic\nZilkide,month 11,islamic\nSilhidsche,month 12,islamic\nSilhid\
je,month 12,islamic\nSilhiddsche,month 12,islamic\nSulhidsche,month 12,islamic\nDulhidsche,month 12,islamic\nDsulhidsch\
e,month 12,islamic\nDhulhidsche,month 12,islamic\nDhulhiddsche,month 12,islamic\nDsu'l-hidsche,month 12,islamic\nDhu'l-\
Hidscha,month 12,islamic\nDhu l-Hidscha,month 12,islamic\nDhul-Hidscha,month 12,islamic\nThout,month 1,coptic\nThot,mon\
th 1,coptic\nThoth,month 1,coptic\nTut,month 1,coptic\nTout,month 1,coptic\nPaopi,month 2,coptic\nPhaophi,month 2,copti\
c\nBabah,month 2,coptic\nBaba,month 2,coptic\nHathor,month 3,coptic\nAthyr,month 3,coptic\nHatur,month 3,coptic\nHator,\
month 3,coptic\nKoiak,month 4,coptic\nChoiak,month 4,coptic\nKiyahk,month 4,coptic\nKiahk,month 4,coptic\nTobi,month 5,\
coptic\nTybi,month 5,coptic\nTubah,month 5,coptic\nToba,month 5,coptic\nMeshir,month 6,coptic\nMechir,month 6,coptic\nA\
mshir,month 6,coptic\nAmschir,month 6,coptic\nMeschir,month 6,coptic\nParemhat,month 7,coptic\nPhamenoth,month 7,coptic\
\nBaramhat,month 7,coptic\nParmouti,month 8,coptic\nPharmuthi,month 8,coptic\nBaramudah,month 8,coptic\nBaramuda,month \
8,coptic\nBaramouda,month 8,coptic\nParemoude,month 8,coptic\nPashons,month 9,coptic\nPachon,month 9,coptic\nBashans,mo\
nth 9,coptic\nBaschans,month 9,coptic\nPaschons,month 9,coptic\nPaoni,month 10,coptic\nPayni,month 10,coptic\nBaunah,mo\
nth 10,coptic\nBauna,month 10,coptic\nPaona,month 10,coptic\nEpip,month 11,coptic\nEpiphi,month 11,coptic\nAbib,month 1\
1,coptic\nEpep,month 11,coptic\nMesori,month 12,coptic\nMesore,month 12,coptic\nMisra,month 12,coptic\nMesra,month 12,c\
optic\nNasie,month 13,coptic\nEpagomenen,month 13,coptic\nPi Kogi Enavot,month 13,coptic\nNasi,month 13,coptic\nMaskara\
m,month 1,ethiopic\nMeskerem,month 1,ethiopic\nMäskäräm,month 1,ethiopic\nTeqemt,month 2,ethiopic\nTikimt,month 2,et\
hiopic\nTiqimt,month 2,ethiopic\nṬəqəmt,month 2,ethiopic\nTekemt,month 2,ethiopic\nHedar,month 3,ethiopic\nHidar,mo\
nth 3,ethiopic\nḪədar,month 3,ethiopic\nTahsas,month 4,ethiopic\nTachsas,month 4,ethiopic\nTaḫśaś,month 4,ethiop\
ic\nTer,month 5,ethiopic\nTir,month 5,ethiopic\nṬərr,month 5,ethiopic\nYakatit,month 6,ethiopic\nYekatit,month 6,eth\
iopic\nYäkatit,month 6,ethiopic\nMagabit,month 7,ethiopic\nMegabit,month 7,ethiopic\nMäggabit,month 7,ethiopic\nMäga\
bit,month 7,ethiopic\nMiyazya,month 8,ethiopic\nMiazia,month 8,ethiopic\nMiyazia,month 8,ethiopic\nGenbot,month 9,ethio\
pic\nGinbot,month 9,ethiopic\nGənbot,month 9,ethiopic\nSane,month 10,ethiopic\nSene,month 10,ethiopic\nSäne,month 10,\
ethiopic\nHamle,month 11,ethiopic\nHamlé,month 11,ethiopic\nḤamle,month 11,ethiopic\nNahase,month 12,ethiopic\nNehas\
e,month 12,ethiopic\nNähase,month 12,ethiopic\nNehasse,month 12,ethiopic\nPagumen,month 13,ethiopic\nPagume,month 13,e\
thiopic\nPagwemen,month 13,ethiopic\nṖagʷəmen,month 13,ethiopic\nṖagumen,month 13,ethiopic\nKalendas,K,roman\nKal\
endis,K,roman\nKalendae,K,roman\nKalendarum,K,roman\nKal,K,roman\nKl,K,roman\nK,K,roman\nCalendas,K,roman\nCalendis,K,r\
oman\nCalendae,K,roman\nCal,K,roman\nNonas,N,roman\nNonis,N,roman\nNonae,N,roman\nNonarum,N,roman\nNon,N,roman\nN,N,rom\
an\nIdus,I,roman\nIdibus,I,roman\nIduum,I,roman\nId,I,roman\nEid,I,roman\npridie,2,roman\nprid,2,roman\npr,2,roman\nter\
tio,3,roman\nquarto,4,roman\nquinto,5,roman\nsexto,6,roman\nseptimo,7,roman\noctavo,8,roman\nnono,9,roman\ndecimo,10,ro\
man\nundecimo,11,roman\nduodecimo,12,roman\ntertio decimo,13,roman\nquarto decimo,14,roman\nquinto decimo,15,roman\nsex\
to decimo,16,roman\nseptimo decimo,17,roman\nduodevicesimo,18,roman\nundevicesimo,19,roman\ndecimo tertio,13,roman\ndec\
imo quarto,14,roman\ndecimo quinto,15,roman\ndecimo sexto,16,roman\ndecimo septimo,17,roman\nIIII,4,french republican\n\
VIIII,9,french republican\nXIIII,14,french republican\n2d,2,\n3d,3,\n22d,22,\n23d,23,\n1 ten,1,\nd 1,1,\nd 1 ten,1,\n2 \
ten,2,\nd 2,2,\nd 2 ten,2,\n3 ten,3,\nd 3,3,\nd 3 ten,3,\n4 ten,4,\nd 4,4,\nd 4 ten,4,\n5 ten,5,\nd 5,5,\nd 5 ten,5,\n\
6 ten,6,\nd 6,6,\nd 6 ten,6,\n7 ten,7,\nd 7,7,\nd 7 ten,7,\n8 ten,8,\nd 8,8,\nd 8 ten,8,\n9 ten,9,\nd 9,9,\nd 9 ten,9,\
\n10 ten,10,\nd 10,10,\nd 10 ten,10,\n11 ten,11,\nd 11,11,\nd 11 ten,11,\n12 ten,12,\nd 12,12,\nd 12 ten,12,\n13 ten,13\
,\nd 13,13,\nd 13 ten,13,\n14 ten,14,\nd 14,14,\nd 14 ten,14,\n15 ten,15,\nd 15,15,\nd 15 ten,15,\n16 ten,16,\nd 16,16,\
\nd 16 ten,16,\n17 ten,17,\nd 17,17,\nd 17 ten,17,\n18 ten,18,\nd 18,18,\nd 18 ten,18,\n19 ten,19,\nd 19,19,\nd 19 ten,\
19,\n20 ten,20,\nd 20,20,\nd 20 ten,20,\n21 ten,21,\nd 21,21,\nd 21 ten,21,\n22 ten,22,\nd 22,22,\nd 22 ten,22,\n23 ten\
,23,\nd 23,23,\nd 23 ten,23,\n24 ten,24,\nd 24,24,\nd 24 ten,24,\n25 ten,25,\nd 25,25,\nd 25 ten,25,\n26 ten,26,\nd 26,\
26,\nd 26 ten,26,\n27 ten,27,\nd 27,27,\nd 27 ten,27,\n28 ten,28,\nd 28,28,\nd 28 ten,28,\n29 ten,29,\nd 29,29,\nd 29 t\
en,29,\n30 ten,30,\nd 30,30,\nd 30 ten,30,\n31 ten,31,\nd 31,31,\nd 31 ten,31,\ntwo,2,\nthree,3,\nfour,4,\nfive,5,\nsix\
,6,\nseven,7,\neight,8,\nnine,9,\nten,10,\neleven,11,\ntwelve,12,\nthirteen,13,\nfourteen,14,\nfifteen,15,\nsixteen,16,\
\nseventeen,17,\neighteen,18,\nnineteen,19,\ntwenty,20,\ntwenty-one,21,\ntwenty-two,22,\ntwenty-three,23,\ntwenty-four,\
24,\ntwenty-five,25,\ntwenty-six,26,\ntwenty-seven,27,\ntwenty-eight,28,\ntwenty-nine,29,\nthirty,30,\nthirty-one,31,\n\
thirty-two,32,\nthirty-three,33,\nthirty-four,34,\nthirty-five,35,\nthirty-six,36,\nthirty-seven,37,\nthirty-eight,38,\
\nthirty-nine,39,\nforty,40,\nforty-one,41,\nforty-two,42,\nforty-three,43,\nforty-four,44,\nforty-five,45,\nforty-six,\
46,\nforty-seven,47,\nforty-eight,48,\nforty-nine,49,\nfifty,50,\nfifty-one,51,\nfifty-two,52,\nfifty-three,53,\nfifty-\
four,54,\nfifty-five,55,\nfifty-six,56,\nfifty-seven,57,\nfifty-eight,58,\nfifty-nine,59,\nsixty,60,\nsixty-one,61,\nsi\
xty-two,62,\nsixty-three,63,\nsixty-four,64,\nsixty-five,65,\nsixty-six,66,\nsixty-seven,67,\nsixty-eight,68,\nsixty-ni\
ne,69,\nseventy,70,\nseventy-one,71,\nseventy-two,72,\nseventy-three,73,\nseventy-four,74,\nseventy-five,75,\nseventy-s\
ix,76,\nseventy-seven,77,\nseventy-eight,78,\nseventy-nine,79,\neighty,80,\neighty-one,81,\neighty-two,82,\neighty-thre\
e,83,\neighty-four,84,\neighty-five,85,\neighty-six,86,\neighty-seven,87,\neighty-eight,88,\neighty-nine,89,\nninety,90\
,\nninety-one,91,\nninety-two,92,\nninety-three,93,\nninety-four,94,\nninety-five,95,\nninety-six,96,\nninety-seven,97,\
\nninety-eight,98,\nninety-nine,99,\nfirst,1,\nsecond,2,\nthird,3,\nfourth,4,\nfifth,5,\nsixth,6,\nseventh,7,\neighth,8\
,\nninth,9,\ntenth,10,\neleventh,11,\ntwelfth,12,\nthirteenth,13,\nfourteenth,14,\nfifteenth,15,\nsixteenth,16,\nsevent\
eenth,17,\neighteenth,18,\nnineteenth,19,\ntwentieth,20,\ntwenty-first,21,\ntwenty-second,22,\ntwenty-third,23,\ntwenty\
-fourth,24,\ntwenty-fifth,25,\ntwenty-sixth,26,\ntwenty-seventh,27,\ntwenty-eighth,28,\ntwenty-ninth,29,\nthirtieth,30,\
\nthirty-first,31,\none hundred,100,\none hundred and,100,\none hundred one,101,\none hundred and one,101,\na hundred,1\
00,\na hundred and,100,\na hundred one,101,\na hundred and one,101,\ntwo hundred,200,\ntwo hundred and,200,\ntwo hundre\
d one,201,\ntwo hundred and one,201,\nthree hundred,300,\nthree hundred and,300,\nthree hundred one,301,\nthree hundre\
d and one,301,\nfour hundred,400,\nfour hundred and,400,\nfour hundred one,401,\nfour hundred and one,401,\nfive hundre\
d,500,\nfive hundred and,500,\nfive hundred one,501,\nfive hundred and one,501,\nsix hundred,600,\nsix hundred and,600,\
\nsix hundred one,601,\nsix hundred and one,601,\nseven hundred,700,\nseven hundred and,700,\nseven hundred one,701,\ns\
even hundred and one,701,\neight hundred,800,\neight hundred and,800,\neight hundred one,801,\neight hundred and one,80\
1,\nnine hundred,900,\nnine hundred and,900,\nnine hundred one,901,\nnine hundred and one,901,\neleven hundred,1100,\ne\
leven hundred and,1100,\neleven hundred one,1101,\neleven hundred and one,1101,\ntwelve hundred,1200,\ntwelve hundred a\
nd,1200,\ntwelve hundred one,1201,\ntwelve hundred and one,1201,\nthirteen hundred,1300,\nthirteen hundred and,1300,\nt\
hirteen hundred one,1301,\nthirteen hundred and one,1301,\nfourteen hundred,1400,\nfourteen hundred and,1400,\nfourtee\
n hundred one,1401,\nfourteen hundred and one,1401,\nfifteen hundred,1500,\nfifteen hundred and,1500,\nfifteen hundred \
one,1501,\nfifteen hundred and one,1501,\nsixteen hundred,1600,\nsixteen hundred and,1600,\nsixteen hundred one,1601,\n\
sixteen hundred and one,1601,\nseventeen hundred,1700,\nseventeen hundred and,1700,\nseventeen hundred one,1701,\nseven\
teen hundred and one,1701,\neighteen hundred,1800,\neighteen hundred and,1800,\neighteen hundred one,1801,\neighteen hu\
ndred and one,1801,\nnineteen hundred,1900,\nnineteen hundred and,1900,\nnineteen hundred one,1901,\nnineteen hundred a\
nd one,1901,\none thousand,1000,\none thousand and,1000,\none thousand and one,1001,\na thousand,1000,\na thousand and,\
1000,\na thousand and one,1001,\ntwo thousand,2000,\ntwo thousand and,2000,\ntwo thousand and one,2001,\ndeux,2,\ntrois\
,3,\nquatre,4,\ncinq,5,\nsept,7,coptic ethiopic egyptian armenian islamic hebrew french republican\nle sept,7,gregoria\
n julian\nhuit,8,\nneuf,9,\ndix,10,\nonze,11,\ndouze,12,\ntreize,13,\nquatorze,14,\nquinze,15,\nseize,16,\ndix-sept,17,\
\ndix-huit,18,\ndix-neuf,19,\nvingt,20,\nvingt et un,21,\nvingt-un,21,\nvingt-deux,22,\nvingt-trois,23,\nvingt-quatre,2\
4,\nvingt-cinq,25,\nvingt-six,26,\nvingt-sept,27,\nvingt-huit,28,\nvingt-neuf,29,\ntrente,30,\ntrente et un,31,\ntrente\
-un,31,\ntrente-deux,32,\ntrente-trois,33,\ntrente-quatre,34,\ntrente-cinq,35,\ntrente-six,36,\ntrente-sept,37,\ntrente\
-huit,38,\ntrente-neuf,39,\nquarante,40,\nquarante et un,41,\nquarante-un,41,\nquarante-deux,42,\nquarante-trois,43,\nq\
uarante-quatre,44,\nquarante-cinq,45,\nquarante-six,46,\nquarante-sept,47,\nquarante-huit,48,\nquarante-neuf,49,\ncinqu\
ante,50,\ncinquante et un,51,\ncinquante-un,51,\ncinquante-deux,52,\ncinquante-trois,53,\ncinquante-quatre,54,\ncinquan\
te-cinq,55,\ncinquante-six,56,\ncinquante-sept,57,\ncinquante-huit,58,\ncinquante-neuf,59,\nsoixante,60,\nsoixante et u\
n,61,\nsoixante-un,61,\nsoixante-deux,62,\nsoixante-trois,63,\nsoixante-quatre,64,\nsoixante-cinq,65,\nsoixante-six,66,\
\nsoixante-sept,67,\nsoixante-huit,68,\nsoixante-neuf,69,\nsoixante-dix,70,\nseptante,70,\nsoixante et onze,71,\nsoixan\
te-onze,71,\nseptante et un,71,\nseptante-un,71,\nsoixante-douze,72,\nseptante-deux,72,\nsoixante-treize,73,\nseptante-\
trois,73,\nsoixante-quatorze,74,\nseptante-quatre,74,\nsoixante-quinze,75,\nseptante-cinq,75,\nsoixante-seize,76,\nsept\
ante-six,76,\nsoixante-dix-sept,77,\nseptante-sept,77,\nsoixante-dix-huit,78,\nseptante-huit,78,\nsoixante-dix-neuf,79,\
\nseptante-neuf,79,\nquatre-vingts,80,\nquatre-vingt,80,\noctante,80,\nhuitante,80,\nquatre-vingt-un,81,\noctante-un,81\
,\nhuitante-un,81,\nquatre-vingt-deux,82,\noctante-deux,82,\nhuitante-deux,82,\nquatre-vingt-trois,83,\noctante-trois,8\
3,\nhuitante-trois,83,\nquatre-vingt-quatre,84,\noctante-quatre,84,\nhuitante-quatre,84,\nquatre-vingt-cinq,85,\noctant\
e-cinq,85,\nhuitante-cinq,85,\nquatre-vingt-six,86,\noctante-six,86,\nhuitante-six,86,\nquatre-vingt-sept,87,\noctante-\
sept,87,\nhuitante-sept,87,\nquatre-vingt-huit,88,\noctante-huit,88,\nhuitante-huit,88,\nquatre-vingt-neuf,89,\noctante\
-neuf,89,\nhuitante-neuf,89,\nquatre-vingt-dix,90,\nnonante,90,\nquatre-vingt-onze,91,\nnonante et un,91,\nnonante-un,9\
1,\nquatre-vingt-douze,92,\nnonante-deux,92,\nquatre-vingt-treize,93,\nnonante-trois,93,\nquatre-vingt-quatorze,94,\nno\
nante-quatre,94,\nquatre-vingt-quinze,95,\nnonante-cinq,95,\nquatre-vingt-seize,96,\nnonante-six,96,\nquatre-vingt-dix-\
sept,97,\nnonante-sept,97,\nquatre-vingt-dix-huit,98,\nnonante-huit,98,\nquatre-vingt-dix-neuf,99,\nnonante-neuf,99,\na\
n un,1,french republican\npremier,1,\ndeuxième,2,\ndeuxieme,2,\ndeuxiesme,2,\ntroisième,3,\ntroisieme,3,\ntroisiesme,\
3,\nquatrième,4,\nquatrieme,4,\nquatriesme,4,\ncinquième,5,\ncinquieme,5,\ncinquiesme,5,\nsixième,6,\nsixieme,6,\nsi\
xiesme,6,\nseptième,7,\nseptieme,7,\nseptiesme,7,\nhuitième,8,\nhuitieme,8,\nhuitiesme,8,\nneuvième,9,\nneuvieme,9,\
\nneuviesme,9,\ndixième,10,\ndixieme,10,\ndixiesme,10,\nonzième,11,\nonzieme,11,\nonziesme,11,\ndouzième,12,\ndouzie\
me,12,\ndouziesme,12,\ntreizième,13,\ntreizieme,13,\ntreiziesme,13,\nquatorzième,14,\nquatorzieme,14,\nquatorziesme,1\
4,\nquinzième,15,\nquinzieme,15,\nquinziesme,15,\nseizième,16,\nseizieme,16,\nseiziesme,16,\ndix-septième,17,\ndix-s\
eptieme,17,\ndix-septiesme,17,\ndix-huitième,18,\ndix-huitieme,18,\ndix-huitiesme,18,\ndix-neuvième,19,\ndix-neuvieme\
,19,\ndix-neuviesme,19,\nvingtième,20,\nvingtieme,20,\nvingtiesme,20,\nvingt et unième,21,\nvingt et unieme,21,\nving\
t et uniesme,21,\nvingt-unième,21,\nvingt-unieme,21,\nvingt-uniesme,21,\nvingt-deuxième,22,\nvingt-deuxieme,22,\nving\
t-deuxiesme,22,\nvingt-troisième,23,\nvingt-troisieme,23,\nvingt-troisiesme,23,\nvingt-quatrième,24,\nvingt-quatrieme\
,24,\nvingt-quatriesme,24,\nvingt-cinquième,25,\nvingt-cinquieme,25,\nvingt-cinquiesme,25,\nvingt-sixième,26,\nvingt-\
sixieme,26,\nvingt-sixiesme,26,\nvingt-septième,27,\nvingt-septieme,27,\nvingt-septiesme,27,\nvingt-huitième,28,\nvin\
gt-huitieme,28,\nvingt-huitiesme,28,\nvingt-neuvième,29,\nvingt-neuvieme,29,\nvingt-neuviesme,29,\ntrentième,30,\ntre\
ntieme,30,\ntrentiesme,30,\ntrente et unième,31,\ntrente et unieme,31,\ntrente et uniesme,31,\ntrente-unième,31,\ntre\
nte-unieme,31,\ntrente-uniesme,31,\ncent,100,\ncent un,101,\ncent sept,107,\ndeux cent,200,\ndeux cent un,201,\ndeux ce\
nt sept,207,\ndeux cents,200,\ndeux cents un,201,\ndeux cents sept,207,\ntrois cent,300,\ntrois cent un,301,\ntrois cen\
t sept,307,\ntrois cents,300,\ntrois cents un,301,\ntrois cents sept,307,\nquatre cent,400,\nquatre cent un,401,\nquatr\
e cent sept,407,\nquatre cents,400,\nquatre cents un,401,\nquatre cents sept,407,\ncinq cent,500,\ncinq cent un,501,\nc\
inq cent sept,507,\ncinq cents,500,\ncinq cents un,501,\ncinq cents sept,507,\nsix cent,600,\nsix cent un,601,\nsix cen\
t sept,607,\nsix cents,600,\nsix cents un,601,\nsix cents sept,607,\nsept cent,700,\nsept cent un,701,\nsept cent sept,\
707,\nsept cents,700,\nsept cents un,701,\nsept cents sept,707,\nhuit cent,800,\nhuit cent un,801,\nhuit cent sept,807,\
\nhuit cents,800,\nhuit cents un,801,\nhuit cents sept,807,\nneuf cent,900,\nneuf cent un,901,\nneuf cent sept,907,\nne\
uf cents,900,\nneuf cents un,901,\nneuf cents sept,907,\nonze cent,1100,\nonze cent un,1101,\nonze cent sept,1107,\nonz\
e cents,1100,\nonze cents un,1101,\nonze cents sept,1107,\ndouze cent,1200,\ndouze cent un,1201,\ndouze cent sept,1207,\
\ndouze cents,1200,\ndouze cents un,1201,\ndouze cents sept,1207,\ntreize cent,1300,\ntreize cent un,1301,\ntreize cen\
t sept,1307,\ntreize cents,1300,\ntreize cents un,1301,\ntreize cents sept,1307,\nquatorze cent,1400,\nquatorze cent un\
,1401,\nquatorze cent sept,1407,\nquatorze cents,1400,\nquatorze cents un,1401,\nquatorze cents sept,1407,\nquinze cent\
,1500,\nquinze cent un,1501,\nquinze cent sept,1507,\nquinze cents,1500,\nquinze cents un,1501,\nquinze cents sept,1507\
,\nseize cent,1600,\nseize cent un,1601,\nseize cent sept,1607,\nseize cents,1600,\nseize cents un,1601,\nseize cents s\
ept,1607,\ndix-sept cent,1700,\ndix-sept cent un,1701,\ndix-sept cent sept,1707,\ndix-sept cents,1700,\ndix-sept cents \
un,1701,\ndix-sept cents sept,1707,\ndix-huit cent,1800,\ndix-huit cent un,1801,\ndix-huit cent sept,1807,\ndix-huit ce\
nts,1800,\ndix-huit cents un,1801,\ndix-huit cents sept,1807,\ndix-neuf cent,1900,\ndix-neuf cent un,1901,\ndix-neuf ce\
nt sept,1907,\ndix-neuf cents,1900,\ndix-neuf cents un,1901,\ndix-neuf cents sept,1907,\nmil,1000,\nmil un,1001,\nmille\
,1000,\nmille un,1001,\ndeux mil,2000,\ndeux mille,2000,\ndeux mil un,2001,\ndeux mille un,2001,\neins,1,\nzwei,2,\nzwe\
y,2,\ndrei,3,\ndrey,3,\nvier,4,\nfünf,5,\nsechs,6,\nsieben,7,\nacht,8,\nneun,9,\nzehn,10,\nelf,11,\nzwölf,12,\ndreize\
hn,13,\ndreyzehn,13,\nvierzehn,14,\nfünfzehn,15,\nsechzehn,16,\nsiebzehn,17,\nachtzehn,18,\nneunzehn,19,\nzwanzig,20,\
\neinundzwanzig,21,\nein und zwanzig,21,\nzweiundzwanzig,22,\nzweyundzwanzig,22,\nzwei und zwanzig,22,\nzwey und zwanzi\
g,22,\ndreiundzwanzig,23,\ndreyundzwanzig,23,\ndrei und zwanzig,23,\ndrey und zwanzig,23,\nvierundzwanzig,24,\nvier un\
d zwanzig,24,\nfünfundzwanzig,25,\nfünf und zwanzig,25,\nsechsundzwanzig,26,\nsechs und zwanzig,26,\nsiebenundzwanzig\
,27,\nsieben und zwanzig,27,\nachtundzwanzig,28,\nacht und zwanzig,28,\nneunundzwanzig,29,\nneun und zwanzig,29,\ndrei\
ßig,30,\ndreyßig,30,\neinunddreißig,31,\neinunddreyßig,31,\nein und dreißig,31,\nein und dreyßig,31,\nzweiunddrei\
ßig,32,\nzweyunddreißig,32,\nzweiunddreyßig,32,\nzweyunddreyßig,32,\nzwei und dreißig,32,\nzwey und dreißig,32,\n\
zwei und dreyßig,32,\nzwey und dreyßig,32,\ndreiunddreißig,33,\ndreyunddreyßig,33,\ndrei und dreißig,33,\ndrey un\
d dreyßig,33,\nvierunddreißig,34,\nvierunddreyßig,34,\nvier und dreißig,34,\nvier und dreyßig,34,\nfünfunddreißi\
g,35,\nfünfunddreyßig,35,\nfünf und dreißig,35,\nfünf und dreyßig,35,\nsechsunddreißig,36,\nsechsunddreyßig,36,\
\nsechs und dreißig,36,\nsechs und dreyßig,36,\nsiebenunddreißig,37,\nsiebenunddreyßig,37,\nsieben und dreißig,37,\
\nsieben und dreyßig,37,\nachtunddreißig,38,\nachtunddreyßig,38,\nacht und dreißig,38,\nacht und dreyßig,38,\nneun\
unddreißig,39,\nneununddreyßig,39,\nneun und dreißig,39,\nneun und dreyßig,39,\nvierzig,40,\neinundvierzig,41,\nei\
n und vierzig,41,\nzweiundvierzig,42,\nzweyundvierzig,42,\nzwei und vierzig,42,\nzwey und vierzig,42,\ndreiundvierzig,4\
3,\ndreyundvierzig,43,\ndrei und vierzig,43,\ndrey und vierzig,43,\nvierundvierzig,44,\nvier und vierzig,44,\nfünfundv\
ierzig,45,\nfünf und vierzig,45,\nsechsundvierzig,46,\nsechs und vierzig,46,\nsiebenundvierzig,47,\nsieben und vierzig\
,47,\nachtundvierzig,48,\nacht und vierzig,48,\nneunundvierzig,49,\nneun und vierzig,49,\nfünfzig,50,\neinundfünfzig,\
51,\nein und fünfzig,51,\nzweiundfünfzig,52,\nzweyundfünfzig,52,\nzwei und fünfzig,52,\nzwey und fünfzig,52,\ndrei\
undfünfzig,53,\ndreyundfünfzig,53,\ndrei und fünfzig,53,\ndrey und fünfzig,53,\nvierundfünfzig,54,\nvier und fünf\
zig,54,\nfünfundfünfzig,55,\nfünf und fünfzig,55,\nsechsundfünfzig,56,\nsechs und fünfzig,56,\nsiebenundfünfzig,\
57,\nsieben und fünfzig,57,\nachtundfünfzig,58,\nacht und fünfzig,58,\nneunundfünfzig,59,\nneun und fünfzig,59,\ns\
echzig,60,\neinundsechzig,61,\nein und sechzig,61,\nzweiundsechzig,62,\nzweyundsechzig,62,\nzwei und sechzig,62,\nzwey \
und sechzig,62,\ndreiundsechzig,63,\ndreyundsechzig,63,\ndrei und sechzig,63,\ndrey und sechzig,63,\nvierundsechzig,64,\
\nvier und sechzig,64,\nfünfundsechzig,65,\nfünf und sechzig,65,\nsechsundsechzig,66,\nsechs und sechzig,66,\nsiebenu\
ndsechzig,67,\nsieben und sechzig,67,\nachtundsechzig,68,\nacht und sechzig,68,\nneunundsechzig,69,\nneun und sechzig,6\
9,\nsiebzig,70,\neinundsiebzig,71,\nein und siebzig,71,\nzweiundsiebzig,72,\nzweyundsiebzig,72,\nzwei und siebzig,72,\n\
zwey und siebzig,72,\ndreiundsiebzig,73,\ndreyundsiebzig,73,\ndrei und siebzig,73,\ndrey und siebzig,73,\nvierundsiebzi\
g,74,\nvier und siebzig,74,\nfünfundsiebzig,75,\nfünf und siebzig,75,\nsechsundsiebzig,76,\nsechs und siebzig,76,\nsi\
ebenundsiebzig,77,\nsieben und siebzig,77,\nachtundsiebzig,78,\nacht und siebzig,78,\nneunundsiebzig,79,\nneun und sieb\
zig,79,\nachtzig,80,\neinundachtzig,81,\nein und achtzig,81,\nzweiundachtzig,82,\nzweyundachtzig,82,\nzwei und achtzig,\
82,\nzwey und achtzig,82,\ndreiundachtzig,83,\ndreyundachtzig,83,\ndrei und achtzig,83,\ndrey und achtzig,83,\nvierunda\
chtzig,84,\nvier und achtzig,84,\nfünfundachtzig,85,\nfünf und achtzig,85,\nsechsundachtzig,86,\nsechs und achtzig,86\
,\nsiebenundachtzig,87,\nsieben und achtzig,87,\nachtundachtzig,88,\nacht und achtzig,88,\nneunundachtzig,89,\nneun un\
d achtzig,89,\nneunzig,90,\neinundneunzig,91,\nein und neunzig,91,\nzweiundneunzig,92,\nzweyundneunzig,92,\nzwei und ne\
unzig,92,\nzwey und neunzig,92,\ndreiundneunzig,93,\ndreyundneunzig,93,\ndrei und neunzig,93,\ndrey und neunzig,93,\nvi\
erundneunzig,94,\nvier und neunzig,94,\nfünfundneunzig,95,\nfünf und neunzig,95,\nsechsundneunzig,96,\nsechs und neun\
zig,96,\nsiebenundneunzig,97,\nsieben und neunzig,97,\nachtundneunzig,98,\nacht und neunzig,98,\nneunundneunzig,99,\nne\
un und neunzig,99,\nzwo,2,\neilf,11,\nerste,1,\nersten,1,\nerster,1,\nzweite,2,\nzweiten,2,\nzweiter,2,\nzweyte,2,\nzwe\
yten,2,\nzweyter,2,\nzwote,2,\nzwoten,2,\nzwoter,2,\ndritte,3,\ndritten,3,\ndritter,3,\nvierte,4,\nvierten,4,\nvierter,\
4,\nfünfte,5,\nfünften,5,\nfünfter,5,\nsechste,6,\nsechsten,6,\nsechster,6,\nsiebente,7,\nsiebenten,7,\nsiebenter,7,\
\nsiebte,7,\nsiebten,7,\nsiebter,7,\nachte,8,\nachten,8,\nachter,8,\nneunte,9,\nneunten,9,\nneunter,9,\nzehnte,10,\nzeh\
nten,10,\nzehnter,10,\nelfte,11,\nelften,11,\nelfter,11,\neilfte,11,\neilften,11,\neilfter,11,\nzwölfte,12,\nzwölften\
,12,\nzwölfter,12,\ndreizehnte,13,\ndreizehnten,13,\ndreizehnter,13,\ndreyzehnte,13,\ndreyzehnten,13,\ndreyzehnter,13,\
\nvierzehnte,14,\nvierzehnten,14,\nvierzehnter,14,\nfünfzehnte,15,\nfünfzehnten,15,\nfünfzehnter,15,\nsechzehnte,16,\
\nsechzehnten,16,\nsechzehnter,16,\nsiebzehnte,17,\nsiebzehnten,17,\nsiebzehnter,17,\nachtzehnte,18,\nachtzehnten,18,\n\
achtzehnter,18,\nneunzehnte,19,\nneunzehnten,19,\nneunzehnter,19,\nzwanzigste,20,\nzwanzigsten,20,\nzwanzigster,20,\nei\
nundzwanzigste,21,\neinundzwanzigsten,21,\neinundzwanzigster,21,\nein und zwanzigste,21,\nein und zwanzigsten,21,\nein \
und zwanzigster,21,\nzweiundzwanzigste,22,\nzweiundzwanzigsten,22,\nzweiundzwanzigster,22,\nzweyundzwanzigste,22,\nzwey\
undzwanzigsten,22,\nzweyundzwanzigster,22,\nzwei und zwanzigste,22,\nzwei und zwanzigsten,22,\nzwei und zwanzigster,22,\
\nzwey und zwanzigste,22,\nzwey und zwanzigsten,22,\nzwey und zwanzigster,22,\ndreiundzwanzigste,23,\ndreiundzwanzigste\
n,23,\ndreiundzwanzigster,23,\ndreyundzwanzigste,23,\ndreyundzwanzigsten,23,\ndreyundzwanzigster,23,\ndrei und zwanzigs\
te,23,\ndrei und zwanzigsten,23,\ndrei und zwanzigster,23,\ndrey und zwanzigste,23,\ndrey und zwanzigsten,23,\ndrey un\
d zwanzigster,23,\nvierundzwanzigste,24,\nvierundzwanzigsten,24,\nvierundzwanzigster,24,\nvier und zwanzigste,24,\nvie\
r und zwanzigsten,24,\nvier und zwanzigster,24,\nfünfundzwanzigste,25,\nfünfundzwanzigsten,25,\nfünfundzwanzigster,2\
5,\nfünf und zwanzigste,25,\nfünf und zwanzigsten,25,\nfünf und zwanzigster,25,\nsechsundzwanzigste,26,\nsechsundzwa\
nzigsten,26,\nsechsundzwanzigster,26,\nsechs und zwanzigste,26,\nsechs und zwanzigsten,26,\nsechs und zwanzigster,26,\n\
siebenundzwanzigste,27,\nsiebenundzwanzigsten,27,\nsiebenundzwanzigster,27,\nsieben und zwanzigste,27,\nsieben und zwan\
zigsten,27,\nsieben und zwanzigster,27,\nachtundzwanzigste,28,\nachtundzwanzigsten,28,\nachtundzwanzigster,28,\nacht un\
d zwanzigste,28,\nacht und zwanzigsten,28,\nacht und zwanzigster,28,\nneunundzwanzigste,29,\nneunundzwanzigsten,29,\nne\
unundzwanzigster,29,\nneun und zwanzigste,29,\nneun und zwanzigsten,29,\nneun und zwanzigster,29,\ndreißigste,30,\ndre\
ißigsten,30,\ndreißigster,30,\ndreyßigste,30,\ndreyßigsten,30,\ndreyßigster,30,\n\
";
