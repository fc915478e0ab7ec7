//! The third third of the built-in list of names: names.csv, from which check/built-names writes this file.

/// The third third of the list.
pub const NAMES: &str = "\
diziembre,month 12,gregorian julian\ndeziembre,month 12,gregorian julian\ndicbre,month 12,gregorian julian\ndizbre,mont\
h 12,gregorian julian\ndel mes de enero,month 1,gregorian julian\ndel mes de febrero,month 2,gregorian julian\ndel mes \
de marzo,month 3,gregorian julian\ndel mes de abril,month 4,gregorian julian\ndel mes de mayo,month 5,gregorian julian\
\ndel mes de junio,month 6,gregorian julian\ndel mes de julio,month 7,gregorian julian\ndel mes de agosto,month 8,grego\
rian julian\ndel mes de septiembre,month 9,gregorian julian\ndel mes de octubre,month 10,gregorian julian\ndel mes de n\
oviembre,month 11,gregorian julian\ndel mes de diciembre,month 12,gregorian julian\nmié,weekday 3,\nmiercoles,weekday \
3,\nmie,weekday 3,\njue,weekday 4,\nvie,weekday 5,\nKânunusani,month 1,gregorian julian\nKanunusani,month 1,gregorian \
julian\nKânun-ı sani,month 1,gregorian julian\nKanun-ı sani,month 1,gregorian julian\nİkincikânun,month 1,gregoria\
n julian\nİkinci Kânun,month 1,gregorian julian\nSonkânun,month 1,gregorian julian\nSonkanun,month 1,gregorian julia\
n\nKânunisani,month 1,gregorian julian\nsubat,month 2,gregorian julian\nNİSAN,month 4,gregorian julian\nmayis,month 5\
,gregorian julian\nHAZİRAN,month 6,gregorian julian\nagustos,month 8,gregorian julian\neylul,month 9,gregorian julian\
\nEylûl,month 9,gregorian julian\nEKİM,month 10,gregorian julian\nTeşrinievvel,month 10,gregorian julian\nTeşrin-i \
evvel,month 10,gregorian julian\nTesrinievvel,month 10,gregorian julian\nBirinciteşrin,month 10,gregorian julian\nBiri\
nci Teşrin,month 10,gregorian julian\nİlkteşrin,month 10,gregorian julian\nkasim,month 11,gregorian julian\nTeşrini\
sani,month 11,gregorian julian\nTeşrin-i sani,month 11,gregorian julian\nTesrinisani,month 11,gregorian julian\nİkinc\
iteşrin,month 11,gregorian julian\nİkinci Teşrin,month 11,gregorian julian\nSonteşrin,month 11,gregorian julian\nSo\
ntesrin,month 11,gregorian julian\naralik,month 12,gregorian julian\nKânunuevvel,month 12,gregorian julian\nKanunuevve\
l,month 12,gregorian julian\nKânun-ı evvel,month 12,gregorian julian\nKanun-ı evvel,month 12,gregorian julian\nBirin\
cikânun,month 12,gregorian julian\nBirinci Kânun,month 12,gregorian julian\nİlkkânun,month 12,gregorian julian\nKâ\
nunievvel,month 12,gregorian julian\nPaz,weekday 0,\nPzt,weekday 1,\nsali,weekday 2,\nÇar,weekday 3,\ncarsamba,weekda\
y 3,\npersembe,weekday 4,\nCmt,weekday 6,\nPazar günü,weekday 0,\nPazartesi günü,weekday 1,\nSalı günü,weekday 2\
,\nÇarşamba günü,weekday 3,\nPerşembe günü,weekday 4,\nCuma günü,weekday 5,\nCumartesi günü,weekday 6,\nΙα\
νουαριος,month 1,gregorian julian\nΦεβρουαριος,month 2,gregorian julian\nΜαρτιος,month 3,greg\
orian julian\nΑπριλιος,month 4,gregorian julian\nΜαιος,month 5,gregorian julian\nΙουνιος,month 6,gr\
egorian julian\nΙουλιος,month 7,gregorian julian\nΑυγουστος,month 8,gregorian julian\nΣεπτεμβρ\
ιος,month 9,gregorian julian\nΟκτωβριος,month 10,gregorian julian\nΝοεμβριος,month 11,gregorian ju\
lian\nΔεκεμβριος,month 12,gregorian julian\nΙανουαριου,month 1,gregorian julian\nΦεβρουαρι\
ου,month 2,gregorian julian\nΜαρτιου,month 3,gregorian julian\nΑπριλιου,month 4,gregorian julian\nΜα\
ιου,month 5,gregorian julian\nΙουνιου,month 6,gregorian julian\nΙουλιου,month 7,gregorian julian\nΑυ\
γουστου,month 8,gregorian julian\nΣεπτεμβριου,month 9,gregorian julian\nΟκτωβριου,month 10,g\
regorian julian\nΝοεμβριου,month 11,gregorian julian\nΔεκεμβριου,month 12,gregorian julian\nἸαν\
ουάριος,month 1,gregorian julian\nἸανουαρίου,month 1,gregorian julian\nἈπρίλιος,month 4,greg\
orian julian\nἈπριλίου,month 4,gregorian julian\nΜάϊος,month 5,gregorian julian\nἸούνιος,month 6,\
gregorian julian\nἸουνίου,month 6,gregorian julian\nἸούλιος,month 7,gregorian julian\nἸουλίου,m\
onth 7,gregorian julian\nΑὔγουστος,month 8,gregorian julian\nΑὐγούστου,month 8,gregorian julian\n\
Ὀκτώβριος,month 10,gregorian julian\nὈκτωβρίου,month 10,gregorian julian\nΓενάρης,month 1,gr\
egorian julian\nΓενάρη,month 1,gregorian julian\nΦλεβάρης,month 2,gregorian julian\nΦλεβάρη,month \
2,gregorian julian\nΜάρτης,month 3,gregorian julian\nΜάρτη,month 3,gregorian julian\nΑπρίλης,month 4,\
gregorian julian\nΑπρίλη,month 4,gregorian julian\nΜάης,month 5,gregorian julian\nΜάη,month 5,gregorian ju\
lian\nΙούνης,month 6,gregorian julian\nΙούνη,month 6,gregorian julian\nΙούλης,month 7,gregorian julian\
\nΙούλη,month 7,gregorian julian\nΣεπτέμβρης,month 9,gregorian julian\nΣεπτέμβρη,month 9,gregor\
ian julian\nΟκτώβρης,month 10,gregorian julian\nΟκτώβρη,month 10,gregorian julian\nΝοέμβρης,mont\
h 11,gregorian julian\nΝοέμβρη,month 11,gregorian julian\nΔεκέμβρης,month 12,gregorian julian\nΔεκέ\
μβρη,month 12,gregorian julian\nΓεναρης,month 1,gregorian julian\nΓεναρη,month 1,gregorian julian\nΦ\
λεβαρης,month 2,gregorian julian\nΦλεβαρη,month 2,gregorian julian\nΜαρτης,month 3,gregorian julian\
\nΜαρτη,month 3,gregorian julian\nΑπριλης,month 4,gregorian julian\nΑπριλη,month 4,gregorian julian\n\
Μαης,month 5,gregorian julian\nΜαη,month 5,gregorian julian\nΙουνης,month 6,gregorian julian\nΙουνη,m\
onth 6,gregorian julian\nΙουλης,month 7,gregorian julian\nΙουλη,month 7,gregorian julian\nΣεπτεμβρη\
ς,month 9,gregorian julian\nΣεπτεμβρη,month 9,gregorian julian\nΟκτωβρης,month 10,gregorian julian\n\
Οκτωβρη,month 10,gregorian julian\nΝοεμβρης,month 11,gregorian julian\nΝοεμβρη,month 11,gregoria\
n julian\nΔεκεμβρης,month 12,gregorian julian\nΔεκεμβρη,month 12,gregorian julian\nἸαν,month 1,gre\
gorian julian\nΦεβρ,month 2,gregorian julian\nΜάρ,month 3,gregorian julian\nΜαρτ,month 3,gregorian julian\n\
Ἀπρ,month 4,gregorian julian\nΜάι,month 5,gregorian julian\nΜαϊ,month 5,gregorian julian\nΜαι,month 5,greg\
orian julian\nΙούν,month 6,gregorian julian\nἸουν,month 6,gregorian julian\nΙούλ,month 7,gregorian julian\
\nἸουλ,month 7,gregorian julian\nΑύγ,month 8,gregorian julian\nΑὐγ,month 8,gregorian julian\nΣεπτ,mont\
h 9,gregorian julian\nὈκτ,month 10,gregorian julian\nΟκτωβρ,month 10,gregorian julian\nΝοέ,month 11,gregor\
ian julian\nΝοεμβρ,month 11,gregorian julian\nΔεκεμβρ,month 12,gregorian julian\nΚυριακη,weekday 0,\
\nΔευτερα,weekday 1,\nΤριτη,weekday 2,\nΤεταρτη,weekday 3,\nΠεμπτη,weekday 4,\nΠαρασκε\
υη,weekday 5,\nΣαββατο,weekday 6,\nΚυρ,weekday 0,\nΚυριακήν,weekday 0,\nΔευ,weekday 1,\nΔευτ\
έραν,weekday 1,\nΤρί,weekday 2,\nΤρι,weekday 2,\nΤρίτην,weekday 2,\nΤετ,weekday 3,\nΤετάρτην\
,weekday 3,\nΠέμ,weekday 4,\nΠεμ,weekday 4,\nΠέμπτην,weekday 4,\nΠαρ,weekday 5,\nΠαρασκευήν,w\
eekday 5,\nΣάβ,weekday 6,\nΣαβ,weekday 6,\nΣάββατον,weekday 6,\ntammi,month 1,gregorian julian\ntammik,mo\
nth 1,gregorian julian\ntammikuun,month 1,gregorian julian\nhelmi,month 2,gregorian julian\nhelmik,month 2,gregorian ju\
lian\nhelmikuun,month 2,gregorian julian\nmaalis,month 3,gregorian julian\nmaalisk,month 3,gregorian julian\nmaaliskuun\
,month 3,gregorian julian\nhuhti,month 4,gregorian julian\nhuhtik,month 4,gregorian julian\nhuhtikuun,month 4,gregoria\
n julian\ntouko,month 5,gregorian julian\ntoukok,month 5,gregorian julian\ntoukokuun,month 5,gregorian julian\nkesä,mo\
nth 6,gregorian julian\nkesäk,month 6,gregorian julian\nkesäkuun,month 6,gregorian julian\nheinä,month 7,gregorian j\
ulian\nheinäk,month 7,gregorian julian\nheinäkuun,month 7,gregorian julian\nelo,month 8,gregorian julian\nelok,month \
8,gregorian julian\nelokuun,month 8,gregorian julian\nsyys,month 9,gregorian julian\nsyysk,month 9,gregorian julian\nsy\
yskuun,month 9,gregorian julian\nloka,month 10,gregorian julian\nlokak,month 10,gregorian julian\nlokakuun,month 10,gre\
gorian julian\nmarras,month 11,gregorian julian\nmarrask,month 11,gregorian julian\nmarraskuun,month 11,gregorian julia\
n\njoulu,month 12,gregorian julian\njouluk,month 12,gregorian julian\njoulukuun,month 12,gregorian julian\nkesakuu,mont\
h 6,gregorian julian\nkesakuuta,month 6,gregorian julian\nkesakuun,month 6,gregorian julian\nheinakuu,month 7,gregoria\
n julian\nheinakuuta,month 7,gregorian julian\nheinakuun,month 7,gregorian julian\nsu,weekday 0,\nsunnuntaina,weekday 0\
,\nmaanantaina,weekday 1,\ntiistaina,weekday 2,\nke,weekday 3,\nkeskiviikkona,weekday 3,\ntorstaina,weekday 4,\npe,week\
day 5,\nperjantaina,weekday 5,\nlauantaina,weekday 6,\nsön,weekday 0,\nsöndagen,weekday 0,\nsondag,weekday 0,\nmån,w\
eekday 1,\nmåndagen,weekday 1,\ntis,weekday 2,\ntisdagen,weekday 2,\nons,weekday 3,\nonsdagen,weekday 3,\ntors,weekda\
y 4,\ntorsdagen,weekday 4,\nthorsdag,weekday 4,\nfre,weekday 5,\nfredagen,weekday 5,\nlör,weekday 6,\nlördagen,weekda\
y 6,\nlordag,weekday 6,\nsøn,weekday 0,\nsøndagen,weekday 0,\nsundag,weekday 0,\nman,weekday 1,\nmandagen,weekday 1,\
\ntirs,weekday 2,\ntirsdagen,weekday 2,\ntysdag,weekday 2,\ntys,weekday 2,\ntor,weekday 4,\nlør,weekday 6,\nlørdagen,\
weekday 6,\nløverdag,weekday 6,\nlaurdag,weekday 6,\nlau,weekday 6,\nniedz,weekday 0,\npon,weekday 1,\nwt,weekday 2,\n\
śr,weekday 3,\ngio,weekday 4,\nczw,weekday 4,\nčt,weekday 4,\npt,weekday 5,\npá,weekday 5,\nsob,weekday 6,\nsze,week\
day 3,\nçrş,weekday 3,\ncs,weekday 4,\nprş,weekday 4,\nszo,weekday 6,\ncts,weekday 6,\nέτος,year,\nέτους,ye\
ar,\nἔτος,year,\nἔτους,year,\nvuonna,year,\névi,year,\név,year,\nesztendő,year,\nesztendőben,year,\nро\
ку,year,\nрік,year,\nyılı,year,\npäivänä,day,\npäivä,day,\npäivää,day,\nnapján,day,\nnapja,day,\nnapjan\
,day,\nnap,day,\nчислѣ,day,\nчисле,day,\ndias,day,\ndia,day,\nр,year,\nera vulgaris,year,\nerae vulgaris,yea\
r,\naerae vulgaris,year,\naera vulgaris,year,\naera christiana,year,\nera christiana,year,\naerae christianae,year,\ner\
a volgare,year,\ndell'era volgare,year,\ndell’era volgare,year,\nera cristiana,year,\ndell'era cristiana,year,\ndell\
’era cristiana,year,\nde la era cristiana,year,\nera cristã,year,\nda era cristã,year,\nera vulgar,year,\nde la er\
a vulgar,year,\nnuestra era,year,\nde nuestra era,year,\nère vulgaire,year,\nde l'ère vulgaire,year,\nde l’ère vul\
gaire,year,\nl'ère vulgaire,year,\nl’ère vulgaire,year,\nère chrétienne,year,\nde l'ère chrétienne,year,\nde l\
’ère chrétienne,year,\nof the Christian era,year,\nChristian era,year,\ncommon era,year,\nvulgar era,year,\nunsere\
r Zeitrechnung,year,\nchristlicher Zeitrechnung,year,\nnach christlicher Zeitrechnung,year,\nera,year spanish,julian\nl\
a era,year spanish,julian\nen la era,year spanish,julian\nera de César,year spanish,julian\nera de Cesar,year spanish,\
julian\nla era de César,year spanish,julian\nla era de Cesar,year spanish,julian\nera de Caesar,year spanish,julian\ne\
ra Cesaris,year spanish,julian\nera Caesaris,year spanish,julian\nera hispánica,year spanish,julian\nera hispanica,yea\
r spanish,julian\nera española,year spanish,julian\nera espanola,year spanish,julian\nera hispana,year spanish,julian\
\naera,year spanish,julian\naera hispanica,year spanish,julian\naera Hispaniae,year spanish,julian\nsub era,year spanis\
h,julian\nin era,year spanish,julian\nin aera,year spanish,julian\nsub aera,year spanish,julian\nna era de César,year \
spanish,julian\nna era de Cesar,year spanish,julian\nna era,year spanish,julian\nот сотворения мира,yea\
r creation,julian\nот с. м.,year creation,julian\nот создания мира,year creation,julian\nот сот\
в. мира,year creation,julian\nот с. мира,year creation,julian\nотъ сотворенія міра,year cr\
eation,julian\nотъ сотворения міра,year creation,julian\nотъ сотворенія мира,year cre\
ation,julian\nот сотворенія міра,year creation,julian\nотъ сотворения мира,year creati\
on,julian\nотъ созданія міра,year creation,julian\nотъ созданія мира,year creation,julian\
\nотъ создания мира,year creation,julian\nотъ с. м.,year creation,julian\nсотворения ми\
ра,year creation,julian\nсотворенія міра,year creation,julian\nот бытия мира,year creation,j\
ulian\nотъ бытія міра,year creation,julian\nот миросоздания,year creation,julian\nлета,ye\
ar creation,julian\nлѣта,year creation,julian\nлето,year creation,julian\nлѣто,year creation,julian\nв л\
ето,year creation,julian\nвъ лѣто,year creation,julian\nлета от сотворения мира,year creat\
ion,julian\nлета от создания мира,year creation,julian\nлета от с. м.,year creation,julian\n\
лето от сотворения мира,year creation,julian\nлѣта отъ сотворенія міра,year cr\
eation,julian\nлѣта отъ созданія міра,year creation,julian\nвід створення світу,yea\
r creation,julian\nвід сотворення світу,year creation,julian\nαπό κτίσεως κόσμου,yea\
r creation,julian\nἀπὸ κτίσεως κόσμου,year creation,julian\nαπό κτίσεως του κόσμου\
,year creation,julian\nén,,\nán,,\njén,,\nik,,\ndik,,\nikén,,\ndikén,,\nkén,,\nkán,,\nй,,\nое,,\nаго,,\nη\
ν,,\nης,,\nτη,,\nτῇ,,\nτην,,\nτὴν,,\nτου,,\nτοῦ,,\naos,,\nв воскресенье,weekday 0,\n\
въ воскресенье,weekday 0,\nвъ воскресеніе,weekday 0,\nв понедельник,weekday 1,\n\
въ понедѣльникъ,weekday 1,\nво вторник,weekday 2,\nво вторникъ,weekday 2,\nв сред\
у,weekday 3,\nвъ среду,weekday 3,\nв середу,weekday 3,\nвъ середу,weekday 3,\nв четверг,\
weekday 4,\nвъ четвергъ,weekday 4,\nв пятницу,weekday 5,\nвъ пятницу,weekday 5,\nв субб\
оту,weekday 6,\nвъ субботу,weekday 6,\ngregor.,gregorian,\ngregor,gregorian,\ngrég.,gregorian,\ngrég,greg\
orian,\nst. n.,gregorian,\nst.n.,gregorian,\nst. nov.,gregorian,\nst. novi,gregorian,\nstili novi,gregorian,\nstyli nov\
i,gregorian,\nnovo stilo,gregorian,\nnovo stylo,gregorian,\ngregorianska kalendern,gregorian,\nnya stilen,gregorian,\nn\
y stil,gregorian,\nnya stil,gregorian,\ngregorianske kalender,gregorian,\nden gregorianske kalender,gregorian,\nden gre\
gorianske kalenderen,gregorian,\ngregorianske,gregorian,\ngregoriaaninen,gregorian,\ngregoriaaninen kalenteri,gregorian\
,\nuutta lukua,gregorian,\nuusi luku,gregorian,\nGergely-naptár,gregorian,\nGergely-féle naptár,gregorian,\ngergely-\
féle,gregorian,\nGergely-naptár szerint,gregorian,\núj naptár,gregorian,\ncalendário gregoriano,gregorian,\nestil\
o novo,gregorian,\nmiladi,gregorian,\nmilâdî,gregorian,\nmiladî,gregorian,\nmiladi takvim,gregorian,\nGregoryen,greg\
orian,\nGregoryen takvimi,gregorian,\nΓρηγοριανό,gregorian,\nΓρηγοριανό ημερολόγιο,gregor\
ian,\nΓρηγοριανόν,gregorian,\nνέο ημερολόγιο,gregorian,\nνέον ἡμερολόγιον,grego\
rian,\nν. ημ.,gregorian,\nν.ημ.,gregorian,\nн.ст.,gregorian,\nнов. ст.,gregorian,\nн. стиль,gregori\
an,\nновый ст.,gregorian,\nнового стиля,gregorian,\nноваго стиля,gregorian,\nгригор\
ианский календарь,gregorian,\nгригор.,gregorian,\nгригоріанський,gregorian,\nгри\
горіанський календар,gregorian,\nновий стиль,gregorian,\nнового стилю,gregorian\
,\nза новим стилем,gregorian,\ngregorianus,gregorian,\ncalendarium Gregorianum,gregorian,\nst. v.,julian,\
\nst.v.,julian,\nst. vet.,julian,\nst. veteris,julian,\nstili veteris,julian,\nstyli veteris,julian,\nstilo veteri,juli\
an,\nstylo vetere,julian,\nveteri stilo,julian,\nveteri stylo,julian,\nv. st.,julian,\nO. St.,julian,\njulianska kalend\
ern,julian,\ngamla stilen,julian,\ngammal stil,julian,\ngamla stil,julian,\ngammel stil,julian,\njulianske kalender,jul\
ian,\nden julianske kalender,julian,\nden julianske kalenderen,julian,\njulianske,julian,\njuliaaninen,julian,\njuliaan\
inen kalenteri,julian,\nvanhaa lukua,julian,\nvanha luku,julian,\nJulianus,julian,\nJulianus-naptár,julian,\nJulián-n\
aptár,julian,\nJulián-naptár szerint,julian,\nónaptár,julian,\nó-naptár,julian,\nrégi naptár,julian,\ncalendá\
rio juliano,julian,\nestilo antigo,julian,\nestilo velho,julian,\nestilo viejo,julian,\nviejo estilo,julian,\nJülyen,j\
ulian,\nJülyen takvimi,julian,\nJulyen,julian,\nΙουλιανό,julian,\nΙουλιανό ημερολόγιο,julian\
,\nΙουλιανόν,julian,\nπαλαιό ημερολόγιο,julian,\nπαλαιόν ἡμερολόγιον,julian\
,\nπαλιό ημερολόγιο,julian,\nπ. ημ.,julian,\nπ.ημ.,julian,\nс. ст.,julian,\nс.ст.,julian,\n\
ст.ст.,julian,\nстар. ст.,julian,\nст. стиль,julian,\nс. стиль,julian,\nстарого стил\
я,julian,\nстараго стиля,julian,\nюлианский календарь,julian,\nюл.,julian,\nюліан\
ський,julian,\nюліанський календар,julian,\nстарий стиль,julian,\nстарого ст\
илю,julian,\nза старим стилем,julian,\ncalendarium Julianum,julian,\nеврейский,hebrew,\nиу\
дейский,hebrew,\nевр.,hebrew,\nєврейський,hebrew,\nhéber,hebrew,\nzsidó,hebrew,\nhebraico,hebrew,\
\njudaico,hebrew,\ncalendário hebraico,hebrew,\ncalendario hebreo,hebrew,\ncalendario judío,hebrew,\nİbrani,hebrew,\
\nMusevi,hebrew,\nMusevî,hebrew,\nΕβραϊκό,hebrew,\nἙβραϊκό,hebrew,\nΙουδαϊκό,hebrew,\nheprealai\
nen,hebrew,\njuutalainen,hebrew,\nhebreisk,hebrew,\nhebreiska,hebrew,\njudisk,hebrew,\njudiska,hebrew,\nhebraisk,hebrew\
,\nhebraiske,hebrew,\njødisk,hebrew,\njødiske,hebrew,\nhebraicus,hebrew,\njudaicus,hebrew,\nмусульмански\
й,islamic,\nисламский,islamic,\nхиджра,islamic,\nхиджры,islamic,\nмусульманський,is\
lamic,\nісламський,islamic,\nгіджра,islamic,\niszlám,islamic,\nmohamedán,islamic,\nhidzsra,islamic,\n\
islâmico,islamic,\nmuçulmano,islamic,\nhégira,islamic,\nhicri takvim,islamic,\nΙσλαμικό,islamic,\nΜουσο\
υλμανικό,islamic,\nΕγίρα,islamic,\nislamilainen,islamic,\nislamisk,islamic,\nislamiska,islamic,\nmuslimsk,\
islamic,\nmuslimska,islamic,\nislamiske,islamic,\nmuslimske,islamic,\nrep.,republican,\nrep,republican,\nrép,republica\
n,\nrépub.,republican,\nrépubl.,republican,\nrepub.,republican,\nrepubl.,republican,\ncalendario republicano,republic\
an,\ncalendário republicano,republican,\nреспубликанский,republican,\nфранцузский респу\
бликанский,republican,\nреспубліканський,republican,\nköztársasági,republican,\nforradalmi\
,republican,\nrepublikansk,republican,\nrepublikanska,republican,\nrepublikanske,republican,\ntasavaltalainen,republica\
n,\ncopt.,coptic,\ncopt,coptic,\nкоптский,coptic,\nкоптський,coptic,\ncopta,coptic,\nKıpti,coptic,\nK\
ıptî,coptic,\nΚοπτικό,coptic,\nkoptilainen,coptic,\nkoptisk,coptic,\nkoptiska,coptic,\nkoptiske,coptic,\neth.,\
ethiopic,\nэфиопский,ethiopic,\nефіопський,ethiopic,\netióp,ethiopic,\netíope,ethiopic,\nHabeş,et\
hiopic,\nΑιθιοπικό,ethiopic,\netiopialainen,ethiopic,\netiopisk,ethiopic,\netiopiska,ethiopic,\netiopiske,ethi\
opic,\nегипетский,egyptian,\nєгипетський,egyptian,\negyiptomi,egyptian,\negípcio,egyptian,\nΑι\
γυπτιακό,egyptian,\negyptiläinen,egyptian,\negyptisk,egyptian,\negyptiska,egyptian,\negyptiske,egyptian,\nægy\
ptisk,egyptian,\nармянский,armenian,\nвірменський,armenian,\nörmény,armenian,\narmênio,armenian,\
\narménio,armenian,\nErmeni,armenian,\nΑρμενικό,armenian,\narmenialainen,armenian,\narmenisk,armenian,\narmeni\
ska,armenian,\narmensk,armenian,\narmenske,armenian,\nримский,roman,\nримський,roman,\nrómai,roman,\nΡ\
ωμαϊκό,roman,\nroomalainen,roman,\nromersk,roman,\nromerska,roman,\nromerske,roman,\nvíspera,eve,gregorian julia\
n\nvispera,eve,gregorian julian\nbíspera,eve,gregorian julian\nbispera,eve,gregorian julian\nla víspera,eve,gregoria\
n julian\nla vispera,eve,gregorian julian\ndaags voor,eve,gregorian julian\ndag voor,eve,gregorian julian\nvooravond va\
n,eve,gregorian julian\nlunes santo,easter -6,gregorian julian\nmartes santo,easter -5,gregorian julian\nmiércoles san\
to,easter -4,gregorian julian\nmiercoles santo,easter -4,gregorian julian\nCircuncisión,feast 1-1,gregorian julian\nCi\
rcuncision,feast 1-1,gregorian julian\nCircuncisión del Señor,feast 1-1,gregorian julian\nCircuncision del Señor,fe\
ast 1-1,gregorian julian\nAño Nuevo,feast 1-1,gregorian julian\nNieuwjaar,feast 1-1,gregorian julian\nNieuwjaarsdag,fe\
ast 1-1,gregorian julian\nEpifanía,feast 1-6,gregorian julian\nEpifania,feast 1-6,gregorian julian\ndía de los Reyes,\
feast 1-6,gregorian julian\ndia de los Reyes,feast 1-6,gregorian julian\ndía de Reyes,feast 1-6,gregorian julian\ndia \
de Reyes,feast 1-6,gregorian julian\ndía de los Reyes Magos,feast 1-6,gregorian julian\ndia de los Reyes Magos,feast 1\
-6,gregorian julian\ndía de los Santos Reyes,feast 1-6,gregorian julian\ndia de los Santos Reyes,feast 1-6,gregorian j\
ulian\nvíspera de los Reyes,feast 1-6 -1,gregorian julian\nvispera de los Reyes,feast 1-6 -1,gregorian julian\nvísper\
a de Reyes,feast 1-6 -1,gregorian julian\nvispera de Reyes,feast 1-6 -1,gregorian julian\nvíspera de los Reyes Magos,f\
east 1-6 -1,gregorian julian\nvispera de los Reyes Magos,feast 1-6 -1,gregorian julian\nvíspera de los Santos Reyes,fe\
ast 1-6 -1,gregorian julian\nvispera de los Santos Reyes,feast 1-6 -1,gregorian julian\ndía de San Sebastián,feast 1-\
20,gregorian julian\ndia de San Sebastian,feast 1-20,gregorian julian\nvíspera de San Sebastián,feast 1-20 -1,gregori\
an julian\nvispera de San Sebastian,feast 1-20 -1,gregorian julian\ndía de Santa Inés,feast 1-21,gregorian julian\ndi\
a de Santa Ines,feast 1-21,gregorian julian\nvíspera de Santa Inés,feast 1-21 -1,gregorian julian\nvispera de Santa I\
nes,feast 1-21 -1,gregorian julian\ndía de la Candelaria,feast 2-2,gregorian julian\ndia de la Candelaria,feast 2-2,gr\
egorian julian\nvíspera de la Candelaria,feast 2-2 -1,gregorian julian\nvispera de la Candelaria,feast 2-2 -1,gregoria\
n julian\ndía de San Blas,feast 2-3,gregorian julian\ndia de San Blas,feast 2-3,gregorian julian\nvíspera de San Blas\
,feast 2-3 -1,gregorian julian\nvispera de San Blas,feast 2-3 -1,gregorian julian\ndía de San Matías,feast 3-1 -5,gre\
gorian julian\ndia de San Matias,feast 3-1 -5,gregorian julian\nvíspera de San Matías,feast 3-1 -6,gregorian julian\n\
vispera de San Matias,feast 3-1 -6,gregorian julian\ndía de San Marcos,feast 4-25,gregorian julian\ndia de San Marcos,\
feast 4-25,gregorian julian\nvíspera de San Marcos,feast 4-25 -1,gregorian julian\nvispera de San Marcos,feast 4-25 -1\
,gregorian julian\ndía de San Felipe y Santiago,feast 5-1,gregorian julian\ndia de San Felipe y Santiago,feast 5-1,gre\
gorian julian\ndía de San Felipe y San Tiago,feast 5-1,gregorian julian\ndia de San Felipe y San Tiago,feast 5-1,grego\
rian julian\nvíspera de San Felipe y Santiago,feast 5-1 -1,gregorian julian\nvispera de San Felipe y Santiago,feast 5-\
1 -1,gregorian julian\nvíspera de San Felipe y San Tiago,feast 5-1 -1,gregorian julian\nvispera de San Felipe y San Ti\
ago,feast 5-1 -1,gregorian julian\ndía de San Juan,feast 6-24,gregorian julian\ndia de San Juan,feast 6-24,gregorian j\
ulian\ndía de San Juan Bautista,feast 6-24,gregorian julian\ndia de San Juan Bautista,feast 6-24,gregorian julian\ndí\
a de señor San Juan,feast 6-24,gregorian julian\ndia de señor San Juan,feast 6-24,gregorian julian\ndía de San Juan \
de junio,feast 6-24,gregorian julian\ndia de San Juan de junio,feast 6-24,gregorian julian\nvíspera de San Juan,feast \
6-24 -1,gregorian julian\nvispera de San Juan,feast 6-24 -1,gregorian julian\nvíspera de San Juan Bautista,feast 6-24 \
-1,gregorian julian\nvispera de San Juan Bautista,feast 6-24 -1,gregorian julian\nvíspera de señor San Juan,feast 6-2\
4 -1,gregorian julian\nvispera de señor San Juan,feast 6-24 -1,gregorian julian\nvíspera de San Juan de junio,feast 6\
-24 -1,gregorian julian\nvispera de San Juan de junio,feast 6-24 -1,gregorian julian\ndía de San Pedro y San Pablo,fea\
st 6-29,gregorian julian\ndia de San Pedro y San Pablo,feast 6-29,gregorian julian\nvíspera de San Pedro y San Pablo,f\
east 6-29 -1,gregorian julian\nvispera de San Pedro y San Pablo,feast 6-29 -1,gregorian julian\ndía de Santa María Ma\
gdalena,feast 7-22,gregorian julian\ndia de Santa Maria Magdalena,feast 7-22,gregorian julian\ndía de la Magdalena,fea\
st 7-22,gregorian julian\ndia de la Magdalena,feast 7-22,gregorian julian\nvíspera de Santa María Magdalena,feast 7-2\
2 -1,gregorian julian\nvispera de Santa Maria Magdalena,feast 7-22 -1,gregorian julian\nvíspera de la Magdalena,feast \
7-22 -1,gregorian julian\nvispera de la Magdalena,feast 7-22 -1,gregorian julian\ndía de Santiago,feast 7-25,gregoria\
n julian\ndia de Santiago,feast 7-25,gregorian julian\ndía de señor Santiago,feast 7-25,gregorian julian\ndia de señ\
or Santiago,feast 7-25,gregorian julian\ndía de Santiago apóstol,feast 7-25,gregorian julian\ndia de Santiago apostol\
,feast 7-25,gregorian julian\ndía de Santiago el Mayor,feast 7-25,gregorian julian\ndia de Santiago el Mayor,feast 7-2\
5,gregorian julian\nvíspera de Santiago,feast 7-25 -1,gregorian julian\nvispera de Santiago,feast 7-25 -1,gregorian ju\
lian\nvíspera de señor Santiago,feast 7-25 -1,gregorian julian\nvispera de señor Santiago,feast 7-25 -1,gregorian ju\
lian\nvíspera de Santiago apóstol,feast 7-25 -1,gregorian julian\nvispera de Santiago apostol,feast 7-25 -1,gregoria\
n julian\nvíspera de Santiago el Mayor,feast 7-25 -1,gregorian julian\nvispera de Santiago el Mayor,feast 7-25 -1,greg\
orian julian\ndía de Santa Ana,feast 7-26,gregorian julian\ndia de Santa Ana,feast 7-26,gregorian julian\nvíspera de \
Santa Ana,feast 7-26 -1,gregorian julian\nvispera de Santa Ana,feast 7-26 -1,gregorian julian\ndía de San Lorenzo,feas\
t 8-10,gregorian julian\ndia de San Lorenzo,feast 8-10,gregorian julian\nvíspera de San Lorenzo,feast 8-10 -1,gregoria\
n julian\nvispera de San Lorenzo,feast 8-10 -1,gregorian julian\ndía de San Bartolomé,feast 8-24,gregorian julian\ndi\
a de San Bartolome,feast 8-24,gregorian julian\nvíspera de San Bartolomé,feast 8-24 -1,gregorian julian\nvispera de S\
an Bartolome,feast 8-24 -1,gregorian julian\ndía de San Mateo,feast 9-21,gregorian julian\ndia de San Mateo,feast 9-21\
,gregorian julian\nvíspera de San Mateo,feast 9-21 -1,gregorian julian\nvispera de San Mateo,feast 9-21 -1,gregorian j\
ulian\ndía de San Miguel,feast 9-29,gregorian julian\ndia de San Miguel,feast 9-29,gregorian julian\ndía de señor Sa\
n Miguel,feast 9-29,gregorian julian\ndia de señor San Miguel,feast 9-29,gregorian julian\ndía de San Miguel de septi\
embre,feast 9-29,gregorian julian\ndia de San Miguel de septiembre,feast 9-29,gregorian julian\nvíspera de San Miguel,\
feast 9-29 -1,gregorian julian\nvispera de San Miguel,feast 9-29 -1,gregorian julian\nvíspera de señor San Miguel,fea\
st 9-29 -1,gregorian julian\nvispera de señor San Miguel,feast 9-29 -1,gregorian julian\nvíspera de San Miguel de sep\
tiembre,feast 9-29 -1,gregorian julian\nvispera de San Miguel de septiembre,feast 9-29 -1,gregorian julian\ndía de Sa\
n Francisco,feast 10-4,gregorian julian\ndia de San Francisco,feast 10-4,gregorian julian\nvíspera de San Francisco,fe\
ast 10-4 -1,gregorian julian\nvispera de San Francisco,feast 10-4 -1,gregorian julian\ndía de San Lucas,feast 10-18,gr\
egorian julian\ndia de San Lucas,feast 10-18,gregorian julian\nvíspera de San Lucas,feast 10-18 -1,gregorian julian\nv\
ispera de San Lucas,feast 10-18 -1,gregorian julian\ndía de las once mil vírgenes,feast 10-21,gregorian julian\ndia d\
e las once mil virgenes,feast 10-21,gregorian julian\nvíspera de las once mil vírgenes,feast 10-21 -1,gregorian julia\
n\nvispera de las once mil virgenes,feast 10-21 -1,gregorian julian\ndía de San Simón y Judas,feast 10-28,gregorian j\
ulian\ndia de San Simon y Judas,feast 10-28,gregorian julian\ndía de San Simón y San Judas,feast 10-28,gregorian juli\
an\ndia de San Simon y San Judas,feast 10-28,gregorian julian\nvíspera de San Simón y Judas,feast 10-28 -1,gregorian \
julian\nvispera de San Simon y Judas,feast 10-28 -1,gregorian julian\nvíspera de San Simón y San Judas,feast 10-28 -1\
,gregorian julian\nvispera de San Simon y San Judas,feast 10-28 -1,gregorian julian\ndía de Todos Santos,feast 11-1,gr\
egorian julian\ndia de Todos Santos,feast 11-1,gregorian julian\nvíspera de Todos Santos,feast 11-1 -1,gregorian julia\
n\nvispera de Todos Santos,feast 11-1 -1,gregorian julian\ndía de los Difuntos,feast 11-2,gregorian julian\ndia de lo\
s Difuntos,feast 11-2,gregorian julian\ndía de los fieles difuntos,feast 11-2,gregorian julian\ndia de los fieles difu\
ntos,feast 11-2,gregorian julian\ndía de difuntos,feast 11-2,gregorian julian\ndia de difuntos,feast 11-2,gregorian ju\
lian\nvíspera de los Difuntos,feast 11-2 -1,gregorian julian\nvispera de los Difuntos,feast 11-2 -1,gregorian julian\n\
víspera de los fieles difuntos,feast 11-2 -1,gregorian julian\nvispera de los fieles difuntos,feast 11-2 -1,gregorian \
julian\nvíspera de difuntos,feast 11-2 -1,gregorian julian\nvispera de difuntos,feast 11-2 -1,gregorian julian\ndía d\
e San Martín,feast 11-11,gregorian julian\ndia de San Martin,feast 11-11,gregorian julian\ndía de señor San Martín,\
feast 11-11,gregorian julian\ndía de señor San Martin,feast 11-11,gregorian julian\nvíspera de San Martín,feast 11\
-11 -1,gregorian julian\nvispera de San Martin,feast 11-11 -1,gregorian julian\nvíspera de señor San Martín,feast 11\
-11 -1,gregorian julian\nvíspera de señor San Martin,feast 11-11 -1,gregorian julian\ndía de Santa Cecilia,feast 11\
-22,gregorian julian\ndia de Santa Cecilia,feast 11-22,gregorian julian\nvíspera de Santa Cecilia,feast 11-22 -1,grego\
rian julian\nvispera de Santa Cecilia,feast 11-22 -1,gregorian julian\ndía de San Clemente,feast 11-23,gregorian julia\
n\ndia de San Clemente,feast 11-23,gregorian julian\nvíspera de San Clemente,feast 11-23 -1,gregorian julian\nvispera \
de San Clemente,feast 11-23 -1,gregorian julian\ndía de Santa Catalina,feast 11-25,gregorian julian\ndia de Santa Cata\
lina,feast 11-25,gregorian julian\nvíspera de Santa Catalina,feast 11-25 -1,gregorian julian\nvispera de Santa Catalin\
a,feast 11-25 -1,gregorian julian\ndía de San Andrés,feast 11-30,gregorian julian\ndia de San Andres,feast 11-30,greg\
orian julian\ndía de señor San Andrés,feast 11-30,gregorian julian\ndía de señor San Andres,feast 11-30,gregoria\
n julian\nvíspera de San Andrés,feast 11-30 -1,gregorian julian\nvispera de San Andres,feast 11-30 -1,gregorian julia\
n\nvíspera de señor San Andrés,feast 11-30 -1,gregorian julian\nvíspera de señor San Andres,feast 11-30 -1,gregor\
ian julian\ndía de Santa Bárbara,feast 12-4,gregorian julian\ndia de Santa Barbara,feast 12-4,gregorian julian\nvísp\
era de Santa Bárbara,feast 12-4 -1,gregorian julian\nvispera de Santa Barbara,feast 12-4 -1,gregorian julian\ndía de \
San Nicolás,feast 12-6,gregorian julian\ndia de San Nicolas,feast 12-6,gregorian julian\nvíspera de San Nicolás,feas\
t 12-6 -1,gregorian julian\nvispera de San Nicolas,feast 12-6 -1,gregorian julian\ndía de Santa Lucía,feast 12-13,gre\
gorian julian\ndia de Santa Lucia,feast 12-13,gregorian julian\nvíspera de Santa Lucía,feast 12-13 -1,gregorian julia\
n\nvispera de Santa Lucia,feast 12-13 -1,gregorian julian\ndía de Santo Tomás,feast 12-21,gregorian julian\ndia de Sa\
nto Tomas,feast 12-21,gregorian julian\ndía de Santo Tomás apóstol,feast 12-21,gregorian julian\ndia de Santo Tomas \
apostol,feast 12-21,gregorian julian\nvíspera de Santo Tomás,feast 12-21 -1,gregorian julian\nvispera de Santo Tomas,\
feast 12-21 -1,gregorian julian\nvíspera de Santo Tomás apóstol,feast 12-21 -1,gregorian julian\nvispera de Santo To\
mas apostol,feast 12-21 -1,gregorian julian\ndía de San Esteban,feast 12-26,gregorian julian\ndia de San Esteban,feas\
t 12-26,gregorian julian\nvíspera de San Esteban,feast 12-26 -1,gregorian julian\nvispera de San Esteban,feast 12-26 -\
1,gregorian julian\ndía de San Juan Evangelista,feast 12-27,gregorian julian\ndia de San Juan Evangelista,feast 12-27,\
gregorian julian\ndía de San Juan apóstol y evangelista,feast 12-27,gregorian julian\ndia de San Juan apostol y evang\
elista,feast 12-27,gregorian julian\nvíspera de San Juan Evangelista,feast 12-27 -1,gregorian julian\nvispera de San J\
uan Evangelista,feast 12-27 -1,gregorian julian\nvíspera de San Juan apóstol y evangelista,feast 12-27 -1,gregorian j\
ulian\nvispera de San Juan apostol y evangelista,feast 12-27 -1,gregorian julian\ndía de los Inocentes,feast 12-28,gre\
gorian julian\ndia de los Inocentes,feast 12-28,gregorian julian\ndía de los Santos Inocentes,feast 12-28,gregorian ju\
lian\ndia de los Santos Inocentes,feast 12-28,gregorian julian\nvíspera de los Inocentes,feast 12-28 -1,gregorian juli\
an\nvispera de los Inocentes,feast 12-28 -1,gregorian julian\nvíspera de los Santos Inocentes,feast 12-28 -1,gregoria\
n julian\nvispera de los Santos Inocentes,feast 12-28 -1,gregorian julian\ndía de San Silvestre,feast 12-31,gregorian \
julian\ndia de San Silvestre,feast 12-31,gregorian julian\nvíspera de San Silvestre,feast 12-31 -1,gregorian julian\nv\
ispera de San Silvestre,feast 12-31 -1,gregorian julian\ndomingo de la Trinidad,easter 56,gregorian julian\ndomingo de \
la Santísima Trinidad,easter 56,gregorian julian\ndomingo de la Santisima Trinidad,easter 56,gregorian julian\nPascua \
de Reyes,feast 1-6,gregorian julian\nPascua de los Reyes,feast 1-6,gregorian julian\nDriekoningen,feast 1-6,gregorian j\
ulian\nDriekoningendag,feast 1-6,gregorian julian\nDertiendag,feast 1-6,gregorian julian\nDerthiendag,feast 1-6,gregori\
an julian\nDerthiendach,feast 1-6,gregorian julian\nConversión de San Pablo,feast 1-25,gregorian julian\nConversion d\
e San Pablo,feast 1-25,gregorian julian\nPurificación de Nuestra Señora,feast 2-2,gregorian julian\nPurificacion de N\
uestra Señora,feast 2-2,gregorian julian\nLichtmis,feast 2-2,gregorian julian\nLichtmisse,feast 2-2,gregorian julian\
\nMaria Lichtmis,feast 2-2,gregorian julian\nOnze Lieve Vrouw Lichtmis,feast 2-2,gregorian julian\nAnunciación,feast 3\
-25,gregorian julian\nAnunciacion,feast 3-25,gregorian julian\nAnunciación de Nuestra Señora,feast 3-25,gregorian jul\
ian\nAnunciacion de Nuestra Señora,feast 3-25,gregorian julian\nMaria Boodschap,feast 3-25,gregorian julian\nOnze Lie\
ve Vrouw Boodschap,feast 3-25,gregorian julian\nInvención de la Cruz,feast 5-3,gregorian julian\nInvencion de la Cruz,\
feast 5-3,gregorian julian\nInvención de la Santa Cruz,feast 5-3,gregorian julian\nInvencion de la Santa Cruz,feast 5-\
3,gregorian julian\nCruz de mayo,feast 5-3,gregorian julian\nNatividad de San Juan,feast 6-24,gregorian julian\nNativid\
ad de San Juan Bautista,feast 6-24,gregorian julian\nMidsummer,feast 6-24,gregorian julian\nSint Jansdag,feast 6-24,gre\
gorian julian\nSint Jansdach,feast 6-24,gregorian julian\nSint Jansmis,feast 6-24,gregorian julian\nSint Jansmisse,feas\
t 6-24,gregorian julian\nSint Jan Baptist,feast 6-24,gregorian julian\nSt Jansdag,feast 6-24,gregorian julian\nSt Jansm\
is,feast 6-24,gregorian julian\nSt Jansmisse,feast 6-24,gregorian julian\nPetrus en Paulus,feast 6-29,gregorian julian\
\nSint Pieter en Paulus,feast 6-29,gregorian julian\nVisitación de Nuestra Señora,feast 7-2,gregorian julian\nVisitac\
ion de Nuestra Señora,feast 7-2,gregorian julian\ndel señor Santiago,feast 7-25,gregorian julian\nSint Jacobsdag,fea\
st 7-25,gregorian julian\nSint Laurensdag,feast 8-10,gregorian julian\nSint Laureins,feast 8-10,gregorian julian\nAsunc\
ión de Nuestra Señora,feast 8-15,gregorian julian\nAsuncion de Nuestra Señora,feast 8-15,gregorian julian\nAsunció\
n de Santa María,feast 8-15,gregorian julian\nAsuncion de Santa Maria,feast 8-15,gregorian julian\nSanta María de ago\
sto,feast 8-15,gregorian julian\nSanta Maria de agosto,feast 8-15,gregorian julian\nNuestra Señora de agosto,feast 8-1\
5,gregorian julian\nMaria Hemelvaart,feast 8-15,gregorian julian\nOnze Lieve Vrouw Hemelvaart,feast 8-15,gregorian juli\
an\nHalf Oogst,feast 8-15,gregorian julian\nHalfoogst,feast 8-15,gregorian julian\nhalf ougst,feast 8-15,gregorian juli\
an\nSint Bartholomeusdag,feast 8-24,gregorian julian\nDegollación de San Juan,feast 8-29,gregorian julian\nDegollacio\
n de San Juan,feast 8-29,gregorian julian\nDegollación de San Juan Bautista,feast 8-29,gregorian julian\nDegollacion d\
e San Juan Bautista,feast 8-29,gregorian julian\nNatividad de Nuestra Señora,feast 9-8,gregorian julian\nNuestra Seño\
ra de septiembre,feast 9-8,gregorian julian\nSanta María de septiembre,feast 9-8,gregorian julian\nSanta Maria de sept\
iembre,feast 9-8,gregorian julian\nExaltación de la Cruz,feast 9-14,gregorian julian\nExaltacion de la Cruz,feast 9-14\
,gregorian julian\nExaltación de la Santa Cruz,feast 9-14,gregorian julian\nExaltacion de la Santa Cruz,feast 9-14,gre\
gorian julian\nCruz de septiembre,feast 9-14,gregorian julian\nKruisverheffing,feast 9-14,gregorian julian\nSint Michie\
lsdag,feast 9-29,gregorian julian\nSint Michielsmis,feast 9-29,gregorian julian\nSint Michielsmisse,feast 9-29,gregoria\
n julian\nTodos los Santos,feast 11-1,gregorian julian\nAlderheiligen,feast 11-1,gregorian julian\nAllerheiligendag,fea\
st 11-1,gregorian julian\nAllerzielen,feast 11-2,gregorian julian\nAlderzielen,feast 11-2,gregorian julian\nSint Maarte\
n,feast 11-11,gregorian julian\nSint Maarten in de winter,feast 11-11,gregorian julian\nSint Maartensdag,feast 11-11,gr\
egorian julian\nSint Maartensmis,feast 11-11,gregorian julian\nSint Maerten,feast 11-11,gregorian julian\nSint Maertens\
misse,feast 11-11,gregorian julian\nSint Katelijne,feast 11-25,gregorian julian\nSint Catharinadag,feast 11-25,gregoria\
n julian\nSint Andries,feast 11-30,gregorian julian\nSint Andriesdag,feast 11-30,gregorian julian\nSint Andriesmis,feas\
t 11-30,gregorian julian\nSint Nicolaas,feast 12-6,gregorian julian\nSint Nicolaasdag,feast 12-6,gregorian julian\nSint\
erklaas,feast 12-6,gregorian julian\nConcepción de Nuestra Señora,feast 12-8,gregorian julian\nConcepcion de Nuestra \
Señora,feast 12-8,gregorian julian\nInmaculada Concepción,feast 12-8,gregorian julian\nInmaculada Concepcion,feast 1\
2-8,gregorian julian\nPurísima Concepción,feast 12-8,gregorian julian\nPurisima Concepcion,feast 12-8,gregorian julia\
n\nSint Thomasdag,feast 12-21,gregorian julian\nNochebuena,feast 12-24,gregorian julian\nKerstavond,feast 12-24,gregori\
an julian\nKersavond,feast 12-24,gregorian julian\nNavidad,feast 12-25,gregorian julian\nPascua de Navidad,feast 12-25,\
gregorian julian\nNatividad del Señor,feast 12-25,gregorian julian\nNatividad de Nuestro Señor,feast 12-25,gregorian \
julian\nKerstmis,feast 12-25,gregorian julian\nKerstmisse,feast 12-25,gregorian julian\nKersmis,feast 12-25,gregorian j\
ulian\nKersmisse,feast 12-25,gregorian julian\nKorsmis,feast 12-25,gregorian julian\nKorsmisse,feast 12-25,gregorian ju\
lian\nKerstdag,feast 12-25,gregorian julian\nKersdach,feast 12-25,gregorian julian\neerste kerstdag,feast 12-25,gregori\
an julian\ntweede kerstdag,feast 12-26,gregorian julian\nOnnozele Kinderen,feast 12-28,gregorian julian\nOnnozele Kinde\
rendag,feast 12-28,gregorian julian\nSeptuagésima,easter -63,gregorian julian\nSexagésima,easter -56,gregorian julian\
\nQuincuagésima,easter -49,gregorian julian\nQuincuagesima,easter -49,gregorian julian\nmiércoles de ceniza,easter -4\
6,gregorian julian\nmiercoles de ceniza,easter -46,gregorian julian\nAswoensdag,easter -46,gregorian julian\ndomingo d\
e Ramos,easter -7,gregorian julian\ndía de Ramos,easter -7,gregorian julian\ndia de Ramos,easter -7,gregorian julian\n\
Palmzondag,easter -7,gregorian julian\nPalmpasen,easter -7,gregorian julian\njueves santo,easter -3,gregorian julian\nW\
itte Donderdag,easter -3,gregorian julian\nviernes santo,easter -2,gregorian julian\nGoede Vrijdag,easter -2,gregorian \
julian\nsábado santo,easter -1,gregorian julian\nsabado santo,easter -1,gregorian julian\nPaaszaterdag,easter -1,grego\
rian julian\nPascua de Resurrección,easter 0,gregorian julian\nPascua de Resurreccion,easter 0,gregorian julian\nPascu\
a de la Resurrección,easter 0,gregorian julian\nPascua de la Resurreccion,easter 0,gregorian julian\ndomingo de Resurr\
ección,easter 0,gregorian julian\ndomingo de Resurreccion,easter 0,gregorian julian\nPascua de Flores,easter 0,gregori\
an julian\nPascua Florida,easter 0,gregorian julian\nPasen,easter 0,gregorian julian\nPaschen,easter 0,gregorian julian\
\nPaesschen,easter 0,gregorian julian\nPaeschen,easter 0,gregorian julian\nPaasdag,easter 0,gregorian julian\nPaaszonda\
g,easter 0,gregorian julian\neerste paasdag,easter 0,gregorian julian\nCuasimodo,easter 7,gregorian julian\nBeloken Pas\
en,easter 7,gregorian julian\nBeloken Paschen,easter 7,gregorian julian\nAscensión,easter 39,gregorian julian\nAscensi\
ón del Señor,easter 39,gregorian julian\nAscension del Señor,easter 39,gregorian julian\nHemelvaart,easter 39,grego\
rian julian\nHemelvaartsdag,easter 39,gregorian julian\nOns Heren Hemelvaart,easter 39,gregorian julian\nPentecostés,e\
aster 49,gregorian julian\nPascua de Pentecostés,easter 49,gregorian julian\nPascua de Pentecostes,easter 49,gregoria\
n julian\nPascua del Espíritu Santo,easter 49,gregorian julian\nPascua del Espiritu Santo,easter 49,gregorian julian\n\
Pascua de Espíritu Santo,easter 49,gregorian julian\nPascua de Espiritu Santo,easter 49,gregorian julian\nPinksteren,e\
aster 49,gregorian julian\nPinxteren,easter 49,gregorian julian\nPincxteren,easter 49,gregorian julian\nPinksterdag,eas\
ter 49,gregorian julian\nPinksterzondag,easter 49,gregorian julian\neerste pinksterdag,easter 49,gregorian julian\nSink\
sen,easter 49,gregorian julian\nSinxen,easter 49,gregorian julian\nSinxenen,easter 49,gregorian julian\nDrievuldigheids\
zondag,easter 56,gregorian julian\nCorpus,easter 60,gregorian julian\nCorpus Cristi,easter 60,gregorian julian\nSacrame\
ntsdag,easter 60,gregorian julian\nHeilig Sacramentsdag,easter 60,gregorian julian\nSint Gillisdag,feast 9-1,gregorian \
julian\nSint Gillismis,feast 9-1,gregorian julian\nBamis,feast 10-1,gregorian julian\nBamisse,feast 10-1,gregorian juli\
an\nBaefmis,feast 10-1,gregorian julian\nBaefmisse,feast 10-1,gregorian julian\nBavomis,feast 10-1,gregorian julian\nSi\
nt Bavo,feast 10-1,gregorian julian\nSint Baafs,feast 10-1,gregorian julian\nSint Baafsmis,feast 10-1,gregorian julian\
\nSint Baefs,feast 10-1,gregorian julian\nSint Baefsmisse,feast 10-1,gregorian julian\nSint Remeis,feast 10-1,gregoria\
n julian\nPaasmaandag,easter 1,gregorian julian\ntweede paasdag,easter 1,gregorian julian\nPinkstermaandag,easter 50,gr\
egorian julian\ntweede pinksterdag,easter 50,gregorian julian\nSinksenmaandag,easter 50,gregorian julian\ndaags na,morr\
ow,gregorian julian\ndag na,morrow,gregorian julian\nВасильев день,feast 1-1,julian\nКрещение Го\
сподне,feast 1-6,julian\nКрещенье Господне,feast 1-6,julian\nКрещения Господня,fe\
ast 1-6,julian\nКрещеніе Господне,feast 1-6,julian\nБогоявление,feast 1-6,julian\nБогоя\
вление Господне,feast 1-6,julian\nБогоявленіе,feast 1-6,julian\nБогоявления,feast 1\
-6,julian\nБогоявленьев день,feast 1-6,julian\nСретение,feast 2-2,julian\nСретение Го\
сподне,feast 2-2,julian\nСретенье,feast 2-2,julian\nСрѣтеніе,feast 2-2,julian\nСрѣтеніе \
Господне,feast 2-2,julian\nСретеньев день,feast 2-2,julian\nБлаговещение,feast 3-25,ju\
lian\nБлаговещенье,feast 3-25,julian\nБлаговѣщеніе,feast 3-25,julian\nБлаговещения,\
feast 3-25,julian\nБлаговещение Пресвятой Богородицы,feast 3-25,julian\nБлаговещ\
еньев день,feast 3-25,julian\nвешний Егорий,feast 4-23,julian\nЕгорий вешний,feast 4-2\
3,julian\nвешний Юрьев день,feast 4-23,julian\nЮрьев день вешний,feast 4-23,julian\nНи\
кола вешний,feast 5-9,julian\nвешний Никола,feast 5-9,julian\nНиколин день вешни\
й,feast 5-9,julian\nИванов день,feast 6-24,julian\nРождество Иоанна Предтечи,feast 6-\
24,julian\nРождество Иоанна Крестителя,feast 6-24,julian\nИван Купала,feast 6-24,jul\
ian\nИвана Купала,feast 6-24,julian\nПетров день,feast 6-29,julian\nПетровъ день,feast \
6-29,julian\nв Петров день,feast 6-29,julian\nвъ Петровъ день,feast 6-29,julian\nна Петр\
ов день,feast 6-29,julian\nПетра и Павла,feast 6-29,julian\nИльин день,feast 7-20,julian\nИ\
льинъ день,feast 7-20,julian\nв Ильин день,feast 7-20,julian\nвъ Ильинъ день,feast 7-20,\
julian\nна Ильин день,feast 7-20,julian\nпервый Спас,feast 8-1,julian\nмедовый Спас,fea\
st 8-1,julian\nПреображение,feast 8-6,julian\nПреображение Господне,feast 8-6,julian\n\
Преображеніе,feast 8-6,julian\nПреображенье,feast 8-6,julian\nвторой Спас,feast 8-6,j\
ulian\nяблочный Спас,feast 8-6,julian\nУспеньев день,feast 8-15,julian\nУспение Бого\
родицы,feast 8-15,julian\nУспение Пресвятой Богородицы,feast 8-15,julian\nУспені\
е Богородицы,feast 8-15,julian\nУспеніе Пресвятыя Богородицы,feast 8-15,julian\nИ\
ван постный,feast 8-29,julian\nУсекновение главы Иоанна Предтечи,feast 8-29,jul\
ian\nСеменов день,feast 9-1,julian\nСемёнов день,feast 9-1,julian\nСеменовъ день,feas\
t 9-1,julian\nСемен день,feast 9-1,julian\nРождество Богородицы,feast 9-8,julian\nРожд\
ество Пресвятой Богородицы,feast 9-8,julian\nРожество Богородицы,feast 9-8,ju\
lian\nВоздвижение,feast 9-14,julian\nВоздвижение Креста,feast 9-14,julian\nВоздвиже\
ние Креста Господня,feast 9-14,julian\nВоздвижение Честного Креста,feast 9-14\
,julian\nВоздвиженіе,feast 9-14,julian\nВоздвиженьев день,feast 9-14,julian\nПокров,fe\
ast 10-1,julian\nПокровъ,feast 10-1,julian\nПокров день,feast 10-1,julian\nПокров Богород\
ицы,feast 10-1,julian\nПокров Пресвятой Богородицы,feast 10-1,julian\nна Покров,fea\
st 10-1,julian\nна Покровъ,feast 10-1,julian\nПокрова Богородицы,feast 10-1,julian\nПокр\
ова Пресвятой Богородицы,feast 10-1,julian\nДмитриев день,feast 10-26,julian\nДми\
триевъ день,feast 10-26,julian\nМихайлов день,feast 11-8,julian\nМихайловъ день,feas\
t 11-8,julian\nВведение во храм,feast 11-21,julian\nВведение Богородицы,feast 11-21,jul\
ian\nВведеньев день,feast 11-21,julian\nВведение во храм Пресвятой Богороди\
цы,feast 11-21,julian\nосенний Юрьев день,feast 11-26,julian\nЮрьев день осенний,feas\
t 11-26,julian\nосенний Егорий,feast 11-26,julian\nАндреев день,feast 11-30,julian\nВарва\
рин день,feast 12-4,julian\nНикола зимний,feast 12-6,julian\nзимний Никола,feast 12-6,ju\
lian\nНиколин день зимний,feast 12-6,julian\nРождество,feast 12-25,julian\nРождеств\
о Христово,feast 12-25,julian\nРожество Христово,feast 12-25,julian\nРождества Хри\
стова день,feast 12-25,julian\nна Рождество,feast 12-25,julian\nна Рождество Христ\
ово,feast 12-25,julian\nпрощёное воскресенье,easter -49,julian\nпрощеное воскресе\
нье,easter -49,julian\nчистый понедельник,easter -48,julian\nВербное воскресенье,\
easter -7,julian\nВербное воскресение,easter -7,julian\nВход Господень в Иерусал\
им,easter -7,julian\nвеликий четверг,easter -3,julian\nчистый четверг,easter -3,julian\nв\
еликая пятница,easter -2,julian\nстрастная пятница,easter -2,julian\nвеликая суб\
бота,easter -1,julian\nстрастная суббота,easter -1,julian\nПасха,easter 0,julian\nПасхи,e\
aster 0,julian\nна Пасху,easter 0,julian\nСветлая Пасха,easter 0,julian\nсвятая Пасха,eas\
ter 0,julian\nсвятой Пасхи,easter 0,julian\nСветлое Воскресение,easter 0,julian\nСвет\
лое Воскресенье,easter 0,julian\nСветлое Христово Воскресение,easter 0,julian\n\
Воскресение Христово,easter 0,julian\nФомино воскресенье,easter 7,julian\nКрас\
ная горка,easter 7,julian\nВознесение,easter 39,julian\nВознесение Господне,easter \
39,julian\nВознесеніе,easter 39,julian\nВознесения,easter 39,julian\nВознесеньев ден\
ь,easter 39,julian\nТроица,easter 49,julian\nТроицы,easter 49,julian\nна Троицу,easter 49,julian\n\
Святая Троица,easter 49,julian\nсвятой Троицы,easter 49,julian\nТроицын день,easter \
49,julian\nТроицынъ день,easter 49,julian\nв Троицын день,easter 49,julian\nПятидесят\
ница,easter 49,julian\nПятидесятницы,easter 49,julian\nДухов день,easter 50,julian\nДухо\
въ день,easter 50,julian\nв Духов день,easter 50,julian\nдень,day,\nв день,day,\nвъ день\
,day,\ndías,day,\nultimo,last day,gregorian julian\nultima,last day,gregorian julian\nult.,last day,gregorian julian\n\
ultima die,last day,gregorian julian\ndie ultima,last day,gregorian julian\nultimo die,last day,gregorian julian\ndie u\
ltimo,last day,gregorian julian\nultima die mensis,last day,gregorian julian\ndie ultima mensis,last day,gregorian juli\
an\nultimus,last day,gregorian julian\núltimo,last day,gregorian julian\núltimo día,last day,gregorian julian\nultim\
o dia,last day,gregorian julian\núltimo dia,last day,gregorian julian\npostrero,last day,gregorian julian\npostrero d\
ía,last day,gregorian julian\npostrero dia,last day,gregorian julian\npostrimero,last day,gregorian julian\npostrimer\
o día,last day,gregorian julian\npostrimero dia,last day,gregorian julian\nl'ultimo,last day,gregorian julian\nl’ult\
imo,last day,gregorian julian\nultimo giorno,last day,gregorian julian\ndernier,last day,gregorian julian\ndernier jour\
,last day,gregorian julian\nderrenier,last day,gregorian julian\nderrenier jour,last day,gregorian julian\nletzten,las\
t day,gregorian julian\nletzter,last day,gregorian julian\nletzten Tag,last day,gregorian julian\nletzter Tag,last day,\
gregorian julian\nlast day,last day,gregorian julian\nlast of,last day,gregorian julian\nlaatsten,last day,gregorian ju\
lian\nlaatste dag,last day,gregorian julian\nlaetsten,last day,gregorian julian\nlaetsten dag,last day,gregorian julian\
\nostatniego,last day,gregorian julian\nostatniego dnia,last day,gregorian julian\nfebvrier,month 2,gregorian julian\nf\
ebvr,month 2,gregorian julian\nfeburier,month 2,gregorian julian\nij,2,\ndos,2,\niij,3,\ntres,3,\niiij,4,\ncuatro,4,\nq\
uatro,4,\nvj,6,\nseis,6,\nseys,6,\nvij,7,\nsiete,7,\nviij,8,\nocho,8,\nviiij,9,\nnueve,9,\nnuebe,9,\nxj,11,\nonce,11,\n\
xij,12,\ndoce,12,\ndoze,12,\nxiij,13,\ntrece,13,\ntreze,13,\nxiiij,14,\ncatorce,14,\ncatorze,14,\nxvj,16,\ndieciséis,1\
6,\ndieciseis,16,\ndiez y seis,16,\ndiez e seis,16,\ndiez y seys,16,\ndieziseis,16,\nxvij,17,\ndiecisiete,17,\ndiez y s\
iete,17,\ndiez e siete,17,\ndiezisiete,17,\nxviij,18,\ndieciocho,18,\ndiez y ocho,18,\ndiez e ocho,18,\ndieziocho,18,\n\
xviiij,19,\ndiecinueve,19,\ndiez y nueve,19,\ndiez e nueve,19,\ndiez y nuebe,19,\ndiezinueve,19,\nxxj,21,\nveintiuno,21\
,\nveinte y uno,21,\nveinte e uno,21,\nveynte y uno,21,\nxxij,22,\nveintidós,22,\nveintidos,22,\nveinte y dos,22,\nvei\
nte e dos,22,\nveynte y dos,22,\nxxiij,23,\nveintitrés,23,\nveintitres,23,\nveinte y tres,23,\nveinte e tres,23,\nveyn\
te y tres,23,\nxxiiij,24,\nveinticuatro,24,\nveinte y cuatro,24,\nveinte y quatro,24,\nveinte e cuatro,24,\nveinte e qu\
atro,24,\nveynte y cuatro,24,\nveynte y quatro,24,\nxxvj,26,\nveintiséis,26,\nveintiseis,26,\nveinte y seis,26,\nveint\
e e seis,26,\nveynte y seis,26,\nxxvij,27,\nveintisiete,27,\nveinte y siete,27,\nveinte e siete,27,\nveynte y siete,27,\
\nxxviij,28,\nveintiocho,28,\nveinte y ocho,28,\nveinte e ocho,28,\nveynte y ocho,28,\nxxviiij,29,\nveintinueve,29,\nve\
inte y nueve,29,\nveinte e nueve,29,\nveynte y nueve,29,\nxxxj,31,\ntreinta y uno,31,\ntreinta e uno,31,\ntreynta y uno\
,31,\nIIen,2,gregorian julian\ndie secunda mensis,2,gregorian julian\nsecunda die mensis,2,gregorian julian\na dos día\
s del mes de,2,gregorian julian\na dos dias del mes de,2,gregorian julian\na 2 días del mes de,2,gregorian julian\na \
2 dias del mes de,2,gregorian julian\nIIIen,3,gregorian julian\ndie tertia mensis,3,gregorian julian\ntertia die mensis\
,3,gregorian julian\na tres días del mes de,3,gregorian julian\na tres dias del mes de,3,gregorian julian\na 3 días d\
el mes de,3,gregorian julian\na 3 dias del mes de,3,gregorian julian\nIIIIen,4,gregorian julian\nIVen,4,gregorian julia\
n\ndie quarta mensis,4,gregorian julian\nquarta die mensis,4,gregorian julian\na cuatro días del mes de,4,gregorian ju\
lian\na cuatro dias del mes de,4,gregorian julian\na quatro días del mes de,4,gregorian julian\na quatro dias del mes \
de,4,gregorian julian\na 4 días del mes de,4,gregorian julian\na 4 dias del mes de,4,gregorian julian\nVIIen,7,gregori\
an julian\nseptima,7,gregorian julian\na siete días del mes de,7,gregorian julian\na siete dias del mes de,7,gregoria\
n julian\na 7 días del mes de,7,gregorian julian\na 7 dias del mes de,7,gregorian julian\nVIIIen,8,gregorian julian\nd\
ie octava mensis,8,gregorian julian\noctava die mensis,8,gregorian julian\na ocho días del mes de,8,gregorian julian\n\
a ocho dias del mes de,8,gregorian julian\na 8 días del mes de,8,gregorian julian\na 8 dias del mes de,8,gregorian jul\
ian\nVIIIIen,9,gregorian julian\nIXen,9,gregorian julian\nnona,9,gregorian julian\na nueve días del mes de,9,gregoria\
n julian\na nueve dias del mes de,9,gregorian julian\na 9 días del mes de,9,gregorian julian\na 9 dias del mes de,9,gr\
egorian julian\nXen,10,gregorian julian\ndecima,10,gregorian julian\na diez días del mes de,10,gregorian julian\na die\
z dias del mes de,10,gregorian julian\na 10 días del mes de,10,gregorian julian\na 10 dias del mes de,10,gregorian jul\
ian\nXIen,11,gregorian julian\nundecima,11,gregorian julian\na once días del mes de,11,gregorian julian\na once dias d\
el mes de,11,gregorian julian\na 11 días del mes de,11,gregorian julian\na 11 dias del mes de,11,gregorian julian\nXII\
en,12,gregorian julian\nduodecima,12,gregorian julian\na doce días del mes de,12,gregorian julian\na doce dias del me\
s de,12,gregorian julian\na doze días del mes de,12,gregorian julian\na doze dias del mes de,12,gregorian julian\na 1\
2 días del mes de,12,gregorian julian\na 12 dias del mes de,12,gregorian julian\nXIIIen,13,gregorian julian\ndecima te\
rtia,13,gregorian julian\ntertia decima,13,gregorian julian\na trece días del mes de,13,gregorian julian\na trece dia\
s del mes de,13,gregorian julian\na treze días del mes de,13,gregorian julian\na treze dias del mes de,13,gregorian ju\
lian\na 13 días del mes de,13,gregorian julian\na 13 dias del mes de,13,gregorian julian\nXIIIIen,14,gregorian julian\
\nXIVen,14,gregorian julian\ndecima quarta,14,gregorian julian\nquarta decima,14,gregorian julian\na catorce días del \
mes de,14,gregorian julian\na catorce dias del mes de,14,gregorian julian\na 14 días del mes de,14,gregorian julian\n\
a 14 dias del mes de,14,gregorian julian\nXVen,15,gregorian julian\ndecima quinta,15,gregorian julian\nquinta decima,15\
,gregorian julian\na quince días del mes de,15,gregorian julian\na quince dias del mes de,15,gregorian julian\na 15 d\
ías del mes de,15,gregorian julian\na 15 dias del mes de,15,gregorian julian\nXVIen,16,gregorian julian\ndecima sexta,\
16,gregorian julian\nsexta decima,16,gregorian julian\na dieciséis días del mes de,16,gregorian julian\na dieciséis \
dias del mes de,16,gregorian julian\na diez y seis días del mes de,16,gregorian julian\na diez y seis dias del mes de,\
16,gregorian julian\na 16 días del mes de,16,gregorian julian\na 16 dias del mes de,16,gregorian julian\nXVIIen,17,gre\
gorian julian\ndecima septima,17,gregorian julian\nseptima decima,17,gregorian julian\na diecisiete días del mes de,17\
,gregorian julian\na diecisiete dias del mes de,17,gregorian julian\na diez y siete días del mes de,17,gregorian julia\
n\na diez y siete dias del mes de,17,gregorian julian\na 17 días del mes de,17,gregorian julian\na 17 dias del mes de,\
17,gregorian julian\nXVIIIen,18,gregorian julian\ndecima octava,18,gregorian julian\noctava decima,18,gregorian julian\
\nduodevicesima,18,gregorian julian\na dieciocho días del mes de,18,gregorian julian\na dieciocho dias del mes de,18,g\
regorian julian\na diez y ocho días del mes de,18,gregorian julian\na diez y ocho dias del mes de,18,gregorian julian\
\na 18 días del mes de,18,gregorian julian\na 18 dias del mes de,18,gregorian julian\nXVIIIIen,19,gregorian julian\nXI\
Xen,19,gregorian julian\ndecima nona,19,gregorian julian\nnona decima,19,gregorian julian\nundevicesima,19,gregorian ju\
lian\na diecinueve días del mes de,19,gregorian julian\na diecinueve dias del mes de,19,gregorian julian\na diez y nue\
ve días del mes de,19,gregorian julian\na diez y nueve dias del mes de,19,gregorian julian\na 19 días del mes de,19,g\
regorian julian\na 19 dias del mes de,19,gregorian julian\nXXen,20,gregorian julian\nvicesima,20,gregorian julian\nvige\
sima,20,gregorian julian\na veinte días del mes de,20,gregorian julian\na veinte dias del mes de,20,gregorian julian\n\
a 20 días del mes de,20,gregorian julian\na 20 dias del mes de,20,gregorian julian\nXXIen,21,gregorian julian\nvicesim\
a prima,21,gregorian julian\nvigesima prima,21,gregorian julian\na veintiuno días del mes de,21,gregorian julian\na ve\
intiuno dias del mes de,21,gregorian julian\na veinte y uno días del mes de,21,gregorian julian\na veinte y uno dias d\
el mes de,21,gregorian julian\na 21 días del mes de,21,gregorian julian\na 21 dias del mes de,21,gregorian julian\nXXI\
Ien,22,gregorian julian\nvicesima secunda,22,gregorian julian\nvigesima secunda,22,gregorian julian\na veintidós día\
s del mes de,22,gregorian julian\na veintidós dias del mes de,22,gregorian julian\na veinte y dos días del mes de,22,\
gregorian julian\na veinte y dos dias del mes de,22,gregorian julian\na 22 días del mes de,22,gregorian julian\na 22 d\
ias del mes de,22,gregorian julian\nXXIIIen,23,gregorian julian\nvicesima tertia,23,gregorian julian\nvigesima tertia,2\
3,gregorian julian\na veintitrés días del mes de,23,gregorian julian\na veintitrés dias del mes de,23,gregorian juli\
an\na veinte y tres días del mes de,23,gregorian julian\na veinte y tres dias del mes de,23,gregorian julian\na 23 dí\
as del mes de,23,gregorian julian\na 23 dias del mes de,23,gregorian julian\nXXIIIIen,24,gregorian julian\nXXIVen,24,gr\
egorian julian\nvicesima quarta,24,gregorian julian\nvigesima quarta,24,gregorian julian\na veinticuatro días del mes \
de,24,gregorian julian\na veinticuatro dias del mes de,24,gregorian julian\na veinte y cuatro días del mes de,24,grego\
rian julian\na veinte y cuatro dias del mes de,24,gregorian julian\na 24 días del mes de,24,gregorian julian\na 24 dia\
s del mes de,24,gregorian julian\nXXVen,25,gregorian julian\nvicesima quinta,25,gregorian julian\nvigesima quinta,25,gr\
egorian julian\na veinticinco días del mes de,25,gregorian julian\na veinticinco dias del mes de,25,gregorian julian\n\
a veinte y cinco días del mes de,25,gregorian julian\na veinte y cinco dias del mes de,25,gregorian julian\na 25 día\
s del mes de,25,gregorian julian\na 25 dias del mes de,25,gregorian julian\nXXVIen,26,gregorian julian\nvicesima sexta,\
26,gregorian julian\nvigesima sexta,26,gregorian julian\na veintiséis días del mes de,26,gregorian julian\na veintis\
éis dias del mes de,26,gregorian julian\na veinte y seis días del mes de,26,gregorian julian\na veinte y seis dias de\
l mes de,26,gregorian julian\na 26 días del mes de,26,gregorian julian\na 26 dias del mes de,26,gregorian julian\nXXVI\
Ien,27,gregorian julian\nvicesima septima,27,gregorian julian\nvigesima septima,27,gregorian julian\na veintisiete día\
s del mes de,27,gregorian julian\na veintisiete dias del mes de,27,gregorian julian\na veinte y siete días del mes de,\
27,gregorian julian\na veinte y siete dias del mes de,27,gregorian julian\na 27 días del mes de,27,gregorian julian\n\
a 27 dias del mes de,27,gregorian julian\nXXVIIIen,28,gregorian julian\nvicesima octava,28,gregorian julian\nvigesima o\
ctava,28,gregorian julian\na veintiocho días del mes de,28,gregorian julian\na veintiocho dias del mes de,28,gregoria\
n julian\na veinte y ocho días del mes de,28,gregorian julian\na veinte y ocho dias del mes de,28,gregorian julian\na \
28 días del mes de,28,gregorian julian\na 28 dias del mes de,28,gregorian julian\nXXVIIIIen,29,gregorian julian\nXXIXe\
n,29,gregorian julian\nvicesima nona,29,gregorian julian\nvigesima nona,29,gregorian julian\na veintinueve días del me\
s de,29,gregorian julian\na veintinueve dias del mes de,29,gregorian julian\na veinte y nueve días del mes de,29,grego\
rian julian\na veinte y nueve dias del mes de,29,gregorian julian\na 29 días del mes de,29,gregorian julian\na 29 dia\
s del mes de,29,gregorian julian\nXXXen,30,gregorian julian\ntricesima,30,gregorian julian\ntrigesima,30,gregorian juli\
an\na treinta días del mes de,30,gregorian julian\na treinta dias del mes de,30,gregorian julian\na 30 días del mes d\
e,30,gregorian julian\na 30 dias del mes de,30,gregorian julian\nXXXIen,31,gregorian julian\ntricesima prima,31,gregori\
an julian\ntrigesima prima,31,gregorian julian\na treinta y uno días del mes de,31,gregorian julian\na treinta y uno d\
ias del mes de,31,gregorian julian\na 31 días del mes de,31,gregorian julian\na 31 dias del mes de,31,gregorian julian\
\ndie prima mensis,1,gregorian julian\nprima die mensis,1,gregorian julian\ndie quinta mensis,5,gregorian julian\nquint\
a die mensis,5,gregorian julian\na cinco días del mes de,5,gregorian julian\na cinco dias del mes de,5,gregorian julia\
n\na 5 días del mes de,5,gregorian julian\na 5 dias del mes de,5,gregorian julian\ndie sexta mensis,6,gregorian julian\
\nsexta die mensis,6,gregorian julian\na seis días del mes de,6,gregorian julian\na seis dias del mes de,6,gregorian j\
ulian\na 6 días del mes de,6,gregorian julian\na 6 dias del mes de,6,gregorian julian\nuno,1,\nprimero,1,\nprimer,1,\n\
cinco,5,\ndiez,10,\nquince,15,\nveinte,20,\nveynte,20,\nbeinte,20,\nveinticinco,25,\nveinte y cinco,25,\nveinte e cinco\
,25,\nveynte y cinco,25,\ntreinta,30,\ntreynta,30,\ntreinta y dos,32,\ntreinta e dos,32,\ntreynta y dos,32,\ntreinta y \
tres,33,\ntreinta e tres,33,\ntreynta y tres,33,\ntreinta y cuatro,34,\ntreinta y quatro,34,\ntreinta e cuatro,34,\ntre\
inta e quatro,34,\ntreynta y cuatro,34,\ntreynta y quatro,34,\ntreinta y cinco,35,\ntreinta e cinco,35,\ntreynta y cinc\
o,35,\ntreinta y seis,36,\ntreinta e seis,36,\ntreynta y seis,36,\ntreinta y siete,37,\ntreinta e siete,37,\ntreynta y \
siete,37,\ntreinta y ocho,38,\ntreinta e ocho,38,\ntreynta y ocho,38,\ntreinta y nueve,39,\ntreinta e nueve,39,\ntreynt\
a y nueve,39,\ncuarenta,40,\nquarenta,40,\ncuarenta y uno,41,\ncuarenta e uno,41,\nquarenta y uno,41,\ncuarenta y dos,4\
2,\ncuarenta e dos,42,\nquarenta y dos,42,\ncuarenta y tres,43,\ncuarenta e tres,43,\nquarenta y tres,43,\ncuarenta y c\
uatro,44,\ncuarenta y quatro,44,\ncuarenta e cuatro,44,\ncuarenta e quatro,44,\nquarenta y cuatro,44,\nquarenta y quatr\
o,44,\ncuarenta y cinco,45,\ncuarenta e cinco,45,\nquarenta y cinco,45,\ncuarenta y seis,46,\ncuarenta e seis,46,\nquar\
enta y seis,46,\ncuarenta y siete,47,\ncuarenta e siete,47,\nquarenta y siete,47,\ncuarenta y ocho,48,\ncuarenta e ocho\
,48,\nquarenta y ocho,48,\ncuarenta y nueve,49,\ncuarenta e nueve,49,\nquarenta y nueve,49,\ncincuenta,50,\ncinquenta,5\
0,\ncincuenta y uno,51,\ncincuenta e uno,51,\ncinquenta y uno,51,\ncincuenta y dos,52,\ncincuenta e dos,52,\ncinquenta \
y dos,52,\ncincuenta y tres,53,\ncincuenta e tres,53,\ncinquenta y tres,53,\ncincuenta y cuatro,54,\ncincuenta y quatro\
,54,\ncincuenta e cuatro,54,\ncincuenta e quatro,54,\ncinquenta y cuatro,54,\ncinquenta y quatro,54,\ncincuenta y cinco\
,55,\ncincuenta e cinco,55,\ncinquenta y cinco,55,\ncincuenta y seis,56,\ncincuenta e seis,56,\ncinquenta y seis,56,\nc\
incuenta y siete,57,\ncincuenta e siete,57,\ncinquenta y siete,57,\ncincuenta y ocho,58,\ncincuenta e ocho,58,\ncinquen\
ta y ocho,58,\ncincuenta y nueve,59,\ncincuenta e nueve,59,\ncinquenta y nueve,59,\nsesenta,60,\nsesenta y uno,61,\nses\
enta e uno,61,\nsesenta y dos,62,\nsesenta e dos,62,\nsesenta y tres,63,\nsesenta e tres,63,\nsesenta y cuatro,64,\nses\
enta y quatro,64,\nsesenta e cuatro,64,\nsesenta e quatro,64,\nsesenta y cinco,65,\nsesenta e cinco,65,\nsesenta y seis\
,66,\nsesenta e seis,66,\nsesenta y siete,67,\nsesenta e siete,67,\nsesenta y ocho,68,\nsesenta e ocho,68,\nsesenta y n\
ueve,69,\nsesenta e nueve,69,\nsetenta,70,\nsetenta y uno,71,\nsetenta e uno,71,\nsetenta y dos,72,\nsetenta e dos,72,\
\nsetenta y tres,73,\nsetenta e tres,73,\nsetenta y cuatro,74,\nsetenta y quatro,74,\nsetenta e cuatro,74,\nsetenta e q\
uatro,74,\nsetenta y cinco,75,\nsetenta e cinco,75,\nsetenta y seis,76,\nsetenta e seis,76,\nsetenta y siete,77,\nseten\
ta e siete,77,\nsetenta y ocho,78,\nsetenta e ocho,78,\nsetenta y nueve,79,\nsetenta e nueve,79,\nochenta,80,\nochenta \
y uno,81,\nochenta e uno,81,\nochenta y dos,82,\nochenta e dos,82,\nochenta y tres,83,\nochenta e tres,83,\nochenta y c\
uatro,84,\nochenta y quatro,84,\nochenta e cuatro,84,\nochenta e quatro,84,\nochenta y cinco,85,\nochenta e cinco,85,\n\
ochenta y seis,86,\nochenta e seis,86,\nochenta y siete,87,\nochenta e siete,87,\nochenta y ocho,88,\nochenta e ocho,88\
,\nochenta y nueve,89,\nochenta e nueve,89,\nnoventa,90,\nnoventa y uno,91,\nnoventa e uno,91,\nnoventa y dos,92,\nnove\
nta e dos,92,\nnoventa y tres,93,\nnoventa e tres,93,\nnoventa y cuatro,94,\nnoventa y quatro,94,\nnoventa e cuatro,94,\
\nnoventa e quatro,94,\nnoventa y cinco,95,\nnoventa e cinco,95,\nnoventa y seis,96,\nnoventa e seis,96,\nnoventa y sie\
te,97,\nnoventa e siete,97,\nnoventa y ocho,98,\nnoventa e ocho,98,\nnoventa y nueve,99,\nnoventa e nueve,99,\nciento,1\
00,\ncien,100,\nciento y,100,\ncien y,100,\ndoscientos,200,\ndocientos,200,\nducientos,200,\ndoszientos,200,\ndozientos\
,200,\nduzientos,200,\ndoscientos y,200,\ndocientos y,200,\nducientos y,200,\ntrescientos,300,\ntrecientos,300,\ntreszi\
entos,300,\ntrezientos,300,\ntrescientos y,300,\ntrecientos y,300,\ncuatrocientos,400,\nquatrocientos,400,\ncuatrozient\
os,400,\nquatrozientos,400,\ncuatrocientos y,400,\nquatrocientos y,400,\nquinientos,500,\nquinientos y,500,\nseisciento\
s,600,\nseyscientos,600,\nseiszientos,600,\nseyszientos,600,\nseiscientos y,600,\nseyscientos y,600,\nsetecientos,700,\
\nsetezientos,700,\nsetecientos y,700,\nochocientos,800,\nochozientos,800,\nochocientos y,800,\nnovecientos,900,\nnovez\
ientos,900,\nnovecientos y,900,\nmill,1000,\nmil y,1000,\na los,,gregorian julian\nin the morning,,gregorian julian\nmo\
rgens,,gregorian julian\nvormittags,,gregorian julian\nnachmittags,,gregorian julian\nthis,,\nau matin,,gregorian julia\
n french republican\ndu matin,,gregorian julian french republican\nle matin,,gregorian julian french republican\n\
";
